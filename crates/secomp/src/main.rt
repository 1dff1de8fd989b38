//! The program: `secomp` on its arguments and the standard streams.
#![tactic(auto)]

use sc_edge::{StdSink, StdSource};
use sc_top::{Status, print, secomp};
use std::env;
use std::io::ErrorKind;
use std::process::ExitCode;
use std::rt::Env;

fn main(rt: HostRuntime) -> ExitCode {
    let mut err = StdSink::new(rt.stderr());
    let status = match read_words(&rt) {
        Ok(words) => {
            let mut source = StdSource::new(rt.stdin());
            let mut out = StdSink::new(rt.stdout());
            secomp(rt.alloc(), &words, &mut source, &mut out, &mut err)
        }
        Err(status) => {
            print(&mut err, &status);
            status
        }
    };
    ExitCode::from(status.number())
}

// The arguments without the program's name. One that is no text is no word of a command.
fn read_words<R: Env + AllocGlobal>(rt: &R) -> Result<Vec<String>, Status> {
    let mut args = match env::args(rt) {
        Ok(args) => args,
        Err(e) if e.kind() == ErrorKind::OutOfMemory => return Err(Status::OutOfMemory),
        Err(_) => return Err(Status::Usage),
    };
    let _name = args.next();
    args.collect(rt.alloc()).map_err(|_| Status::OutOfMemory)
}
