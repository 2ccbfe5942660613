ghost use Rattle.std.specs.Prelude.{◌≡◌, ◌==◌};
ghost use Rattle.std.specs.Str.{bytes_eq};

use rt_base::{Name, ObjNo};

/// An object of a class: its number and its name.
#[derive(Drop)]
pub struct Object {
    pub no: ObjNo,
    pub name: Name,
}

impl Object {
    // Whether it has the number.
    pub(crate) fn has(&self, no: ObjNo) -> bool
        ensures { result ≡ (self.now.no == no) }
    {
        self.no.0 == no.0
    }

    // Whether it has the name.
    pub(crate) fn is_named(&self, name: &[u8]) -> bool
        ensures { result ≡ bytes_eq self.now.name name.now }
    {
        self.name.bytes() == name
    }
}
