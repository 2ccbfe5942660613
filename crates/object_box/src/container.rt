ghost use Rattle.std.specs.Prelude.{ℕ, ◌≡◌, ◌<◌, ◌+◌, ◌==◌, ◌&&◌, false, true, [], Some, length, slice_get, IfOk, IsTrue};
ghost use Rattle.std.specs.List.{list_any};
ghost use Rattle.std.specs.Str.{bytes_eq};
ghost use Rattle.object_box.specs.Objects.{IsSound, IsLeastFree, has_number, number_of, MakeCause, made, removed};

use crate::fault::Make;
use crate::object::Object;
use rt_base::{Name, ObjNo};
use std::alloc::{AllocError, Global};
use std::marker::Model;

// The objects of one class, newest first.
#[derive(Drop)]
pub struct Container {
    limit: u16,
    objects: Vec<Object>,
}

impl Model for Container {
    ghost use Rattle.object_box.specs.Objects.{ClassObjects, IsSound};
    ghost use Rattle.std.specs.Prelude.{◌<◌, ◌≤◌, vec_capacity};

    ghost Value = { ClassObjects };

    ghost view = { λ c. record { limit = c.limit; objects = c.objects.items } };

    ghost invariant = { λ c. (c.limit ≤ vec_capacity c.objects)
        × ((c.limit < 65536) × IsSound (record { limit = c.limit; objects = c.objects.items })) };
}

impl Container {
    // A class without objects, with room for as many as its limit.
    pub fn new(alloc: Global, limit: u16) -> Result<Container, AllocError>
        ensures { IfOk result (λ c. c ≡ record { limit = limit; objects = [] }) }
    {
        let objects = Vec::with_capacity(alloc, limit as usize)?;
        Ok(Container { limit, objects })
    }

    // Makes an object of a name, with the least free number.
    pub fn make(&mut self, name: Name) -> Result<ObjNo, Make>
        ensures cause { MakeCause self.old name result }
        ensures state { self.new ≡ made self.old name result }
    {
        if let Some(no) = self.find(&name) {
            return Err(Make::Taken(no));
        }
        if self.objects.len() >= self.limit as usize {
            return Err(Make::ClassFull(self.limit));
        }
        let no = least_free(&self.objects);
        let _ = self.objects.insert(0, Object { no, name });
        Ok(no)
    }

    // The number of the object of a name.
    pub fn find(&self, name: &Name) -> Option<ObjNo>
        ensures { result ≡ number_of self.now.objects name.now }
    {
        let object = self.objects.iter().find(|o| o.is_named(name.bytes()))?;
        Some(object.no)
    }

    // Whether an object has the number.
    pub fn has(&self, no: ObjNo) -> bool
        ensures { result ≡ has_number self.now.objects no }
    {
        has_number(&self.objects, no)
    }

    // Whether the object of a number has the name.
    pub fn has_name_at(&self, no: ObjNo, name: &[u8]) -> bool
        ensures { result ≡ list_any (λ o. (o.no == no) && bytes_eq o.name name.now) self.now.objects }
    {
        self.objects.iter().any(|o| o.has(no) && o.is_named(name))
    }

    // The place of an object's row in a table by number.
    pub fn place_of(&self, no: ObjNo) -> usize
        requires { IsTrue (has_number self.now.objects no) }
        ensures place { result ≡ no }
        ensures within { result < self.now.limit }
    {
        let place = no.0;
        prove!(place < self.limit);
        place as usize
    }

    // Drops the object of a number.
    pub fn remove(&mut self, no: ObjNo)
        requires { IsTrue (has_number self.old.objects no) }
        ensures { self.new ≡ removed self.old no }
    {
        self.objects.retain(|o| !o.has(no));
    }

    // The number of objects.
    pub fn count(&self) -> u16
        ensures count { result ≡ length self.now.objects }
        ensures sound { IsSound self.now }
    {
        self.objects.len() as u16
    }

    // The object at a place, of which the newest is at 0.
    pub fn at(&self, place: u16) -> (ObjNo, Name)
        requires { place < length self.now.objects }
        ensures { slice_get self.now.objects place ≡ Some (record { no = result.0; name = result.1 }) }
    {
        let object = &self.objects[place as usize];
        (object.no, object.name.copy())
    }
}

// Whether an object has the number.
fn has_number(objects: &[Object], no: ObjNo) -> bool
    ensures { result ≡ has_number objects.now no }
{
    objects.iter().any(|o| o.has(no))
}

// The least number that no object has.
fn least_free(objects: &[Object]) -> ObjNo
    requires { length objects.now < 65536 }
    ensures { IsLeastFree objects.now result }
{
    let mut no = 0;
    while has_number(objects, ObjNo(no)) {
        no += 1;
    }
    ObjNo(no)
}
