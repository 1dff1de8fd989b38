//! Names that stand for something of their own.

ghost use Rattle.sc_types_interfaces.specs.Prelude.{environment, input_name, is_plain, main_name, output_name};
ghost use Rattle.std.specs.Prelude.{◌≡◌, bytes_eq};

use sc_base::Name;

pub(crate) fn same_name(a: &Name, b: &Name) -> bool
    ensures { result ≡ bytes_eq a.now b.now }
{
    a.as_bytes() == b.as_bytes()
}

pub(crate) fn is_main_name(name: &Name) -> bool
    ensures { result ≡ bytes_eq name.now main_name }
{
    name.as_bytes() == b"main".as_slice()
}

pub(crate) fn is_input_name(name: &Name) -> bool
    ensures { result ≡ bytes_eq name.now input_name }
{
    name.as_bytes() == b"input".as_slice()
}

pub(crate) fn is_output_name(name: &Name) -> bool
    ensures { result ≡ bytes_eq name.now output_name }
{
    name.as_bytes() == b"output".as_slice()
}

/// Whether this is the reserved compartment that offers `input` and `output`.
pub(crate) fn is_environment_name(name: &Name) -> bool
    ensures { result ≡ bytes_eq name.now environment }
{
    name.as_bytes() == b"Env".as_slice()
}

/// Whether a function of this name may cross: its name doesn't begin with `bt_`.
#[tactic(auto, using(crate::proofs::Texts::texts))]
pub(crate) fn is_plain(name: &Name) -> bool
    ensures { result ≡ is_plain name.now }
{
    !name.as_bytes().starts_with(b"bt_")
}

#[tactic(auto, unfolding(sc_base::specs::Identifier::is_name))]
pub(crate) fn main_name() -> Name
    ensures { result ≡ main_name }
{
    Name::new(b"main").unwrap()
}
