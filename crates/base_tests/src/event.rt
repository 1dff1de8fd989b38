ghost use Rattle.std.specs.Prelude.{◌≡◌, [], ◌∷◌, codes, IfOk, Some};
ghost use Rattle.sc_event.specs.declared.interface.Import.TheVariants.{Output, Function};
ghost use Rattle.sc_event.specs.declared.interface.Interface.{Interface};
ghost use Rattle.sc_event.specs.declared.interface.Interfaces.{Interfaces};
ghost use Rattle.sc_event.specs.declared.interface.Scalar.TheVariants.{Int};

use sc_base::{Name, OutOfMemory};
use sc_event::{
    Args, CompId, Event, Import, Imports, Interface, InterfaceList, Interfaces, Params, Proto,
    Protos, Scalar, event_text, legal,
};
use std::alloc::Global;
use std::test::Fail;

#[test]
fn compartments(rt: HostRuntime) {
    assert_eq!(rt; CompId::first().number(), 0);
    assert!(rt; CompId::new(31).is_some());
    assert!(rt; CompId::new(32).is_none());
}

#[test]
fn arguments(rt: HostRuntime) {
    let mut args = Args::new(rt.alloc());
    for word in 0..8 {
        assert!(rt; args.push(word).is_some());
    }
    assert!(rt; args.push(8).is_none());
    assert!(rt; args.as_slice() == [0, 1, 2, 3, 4, 5, 6, 7].as_slice());
    assert!(rt; args.copied() == args);
    assert!(rt; Args::from_slice(rt.alloc(), &[0; 9]).is_none());
}

// `Main` may output and call `put` of `Net`.
fn fixture(alloc: Global) -> Result<Interfaces, OutOfMemory>
    ensures { IfOk result (λ interfaces. interfaces ≡ record {
      comps = record { name = codes "Main"; exports = []; imports = Output ∷ Function 1 0 ∷ [] }
          ∷ record {
            name = codes "Net";
            exports = record { name = codes "put"; params = Int ∷ []; result = Some Int } ∷
                [];
            imports = [];
          }
          ∷ [];
      main = 0;
    }) }
{
    let mut comps = InterfaceList::new(alloc);
    comps.push(main_interface(alloc)?)?;
    comps.push(net_interface(alloc)?)?;
    Ok(Interfaces {
        comps,
        main: CompId::first(),
    })
}

#[tactic(auto, unfolding(sc_base::specs::Identifier::is_name))]
fn main_interface(alloc: Global) -> Result<Interface, OutOfMemory>
    ensures { IfOk result (λ main. main ≡ record {
      name = codes "Main";
      exports = [];
      imports = Output ∷ Function 1 0 ∷ [];
    }) }
{
    let mut imports = Imports::new(alloc);
    imports.push(Import::Output)?;
    imports.push(Import::Function {
        comp: net(),
        index: 0,
    })?;
    Ok(Interface {
        name: Name::new(b"Main").unwrap(),
        exports: Protos::new(alloc),
        imports,
    })
}

#[tactic(auto, unfolding(sc_base::specs::Identifier::is_name))]
fn net_interface(alloc: Global) -> Result<Interface, OutOfMemory>
    ensures { IfOk result (λ net. net ≡ record {
      name = codes "Net";
      exports = record { name = codes "put"; params = Int ∷ []; result = Some Int } ∷ [];
      imports = [];
    }) }
{
    let mut exports = Protos::new(alloc);
    exports.push(Proto {
        name: Name::new(b"put").unwrap(),
        params: Params::from_slice(alloc, &[Scalar::Int]).unwrap(),
        result: Some(Scalar::Int),
    })?;
    Ok(Interface {
        name: Name::new(b"Net").unwrap(),
        exports,
        imports: Imports::new(alloc),
    })
}

fn net() -> CompId
    ensures { result ≡ 1 }
{
    CompId::new(1).unwrap()
}

fn put(alloc: Global) -> Event
    ensures { result ≡ Event.Call 0 1 0 (4 ∷ []) }
{
    Event::Call {
        from: CompId::first(),
        to: net(),
        index: 0,
        args: Args::from_slice(alloc, &[4]).unwrap(),
    }
}

fn put_back(value: Option<u32>) -> Event
    ensures { result ≡ Event.Ret 1 0 value }
{
    Event::Ret {
        from: net(),
        to: CompId::first(),
        value,
    }
}

#[test]
fn events_are_printed_by_names(rt: HostRuntime) -> Result<(), Fail> {
    let interfaces = fixture(rt.alloc())?;
    let comp = CompId::first();
    let call = event_text(rt.alloc(), &interfaces, &put(rt.alloc()))?;
    assert!(rt; call.as_bytes() == b"call Main Net put 4\n".as_slice());
    let back = event_text(rt.alloc(), &interfaces, &put_back(Some(7)))?;
    assert!(rt; back.as_bytes() == b"ret Net Main 7\n".as_slice());
    let alone = event_text(rt.alloc(), &interfaces, &put_back(None))?;
    assert!(rt; alone.as_bytes() == b"ret Net Main\n".as_slice());
    assert!(rt; legal(&interfaces, &[Event::End { comp, value: 0 }]));
    assert!(rt; !legal(&interfaces, &[Event::In { comp, value: 0 }]));
    Ok(())
}

#[test]
fn interfaces_are_asked(rt: HostRuntime) -> Result<(), Fail> {
    let interfaces = fixture(rt.alloc())?;
    let main = CompId::first();
    assert!(rt; interfaces.imports_output(main));
    assert!(rt; !interfaces.imports_input(main));
    assert!(rt; interfaces.imports_function(main, net(), 0));
    assert!(rt; !interfaces.imports_function(net(), main, 0));
    assert!(rt; interfaces.takes(net(), 0, 1));
    assert!(rt; !interfaces.takes(net(), 0, 2));
    assert!(rt; interfaces.may_return(net(), 0, Some(7)));
    assert!(rt; !interfaces.may_return(net(), 0, None));
    Ok(())
}
