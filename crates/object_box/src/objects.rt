ghost use Rattle.std.specs.Prelude.{◌≡◌, ◌<◌, [], Some, length, slice_get, slice_set, IfOk, IsTrue};
ghost use Rattle.object_box.specs.Objects.{IsSound, has_number, number_of, MakeCause};
ghost use Rattle.object_box.specs.Classes.{of_class, limit_of, all_made, all_removed};
ghost use Rattle.object_box.specs.Devices.{row_of, is_console, Opens, Closes, SetsRate};

use crate::container::Container;
use crate::device::DeviceRow;
use crate::fault::{CountFull, Make, NoRate, NotOpen};
use crate::limits::ClassLimits;
use rt_base::{Class, Name, ObjNo};
use std::alloc::{AllocError, Global};
use std::marker::Model;

/// The objects of all classes, each class a list of numbers and names with the newest first, as
/// RT-Thread's containers are. Contracts see these lists, and for each device number how often the
/// device is open and its rate.
#[derive(Drop)]
pub struct Objects {
    thread: Container,
    sem: Container,
    event: Container,
    mutex: Container,
    mailbox: Container,
    msgqueue: Container,
    timer: Container,
    device: Container,
    rows: Vec<DeviceRow>,
}

impl Model for Objects {
    ghost use Rattle.std.specs.Prelude.{◌≡◌, length};
    ghost use Rattle.object_box.specs.Classes.{AllObjects};

    ghost Value = { AllObjects };

    ghost view = { λ a. record {
      thread = a.thread;
      sem = a.sem;
      event = a.event;
      mutex = a.mutex;
      mailbox = a.mailbox;
      msgqueue = a.msgqueue;
      timer = a.timer;
      device = a.device;
      rows = a.rows.items;
    } };

    ghost invariant = { λ a. length a.rows.items ≡ a.device.limit };
}

impl Objects {
    /// No objects, with room in each class for as many as its limit. No other call takes memory.
    pub fn new(alloc: Global, limits: ClassLimits) -> Result<Objects, AllocError>
        ensures { IfOk result (λ a. (class : Class)
            → of_class class a ≡ record { limit = limit_of class limits; objects = [] }) }
    {
        Ok(Objects {
            thread: Container::new(alloc, limits.thread)?,
            sem: Container::new(alloc, limits.sem)?,
            event: Container::new(alloc, limits.event)?,
            mutex: Container::new(alloc, limits.mutex)?,
            mailbox: Container::new(alloc, limits.mailbox)?,
            msgqueue: Container::new(alloc, limits.msgqueue)?,
            timer: Container::new(alloc, limits.timer)?,
            device: Container::new(alloc, limits.device)?,
            rows: vec![in alloc; DeviceRow::NEW; limits.device as usize]?,
        })
    }

    /// Makes an object of a class. It gets the least number that no object of its class has, and goes
    /// to the front; a device is made with open count 0 and rate 1. `Taken` comes exactly where an
    /// object of the class has the name, with its number; else `ClassFull` exactly where the class
    /// holds its limit, with that limit.
    pub fn make(&mut self, class: Class, name: Name) -> Result<ObjNo, Make>
        ensures cause { MakeCause (of_class class self.old) name result }
        ensures state { self.new ≡ all_made class self.old name result }
    {
        match class {
            Class::Thread => self.thread.make(name),
            Class::Sem => self.sem.make(name),
            Class::Event => self.event.make(name),
            Class::Mutex => self.mutex.make(name),
            Class::Mailbox => self.mailbox.make(name),
            Class::MsgQueue => self.msgqueue.make(name),
            Class::Timer => self.timer.make(name),
            Class::Device => {
                let no = self.device.make(name)?;
                self.rows[no.0 as usize] = DeviceRow::NEW;
                Ok(no)
            }
        }
    }

    /// The number of the object of a name: `None` exactly where the class has no such object.
    pub fn find(&self, class: Class, name: &Name) -> Option<ObjNo>
        ensures { result ≡ number_of (of_class class self.now).objects name.now }
    {
        self.class(class).find(name)
    }

    /// Whether a class has an object of a number.
    pub fn holds(&self, class: Class, no: ObjNo) -> bool
        ensures { result ≡ has_number (of_class class self.now).objects no }
    {
        self.class(class).has(no)
    }

    /// Drops the object of a number. The others keep their numbers and their order.
    pub fn remove(&mut self, class: Class, no: ObjNo)
        requires { IsTrue (has_number (of_class class self.old).objects no) }
        ensures { self.new ≡ all_removed class self.old no }
    {
        match class {
            Class::Thread => self.thread.remove(no),
            Class::Sem => self.sem.remove(no),
            Class::Event => self.event.remove(no),
            Class::Mutex => self.mutex.remove(no),
            Class::Mailbox => self.mailbox.remove(no),
            Class::MsgQueue => self.msgqueue.remove(no),
            Class::Timer => self.timer.remove(no),
            Class::Device => self.device.remove(no),
        }
    }

    /// The number of objects of a class.
    pub fn count(&self, class: Class) -> u16
        ensures count { result ≡ length (of_class class self.now).objects }
        ensures sound { IsSound (of_class class self.now) }
    {
        self.class(class).count()
    }

    /// The object at a place of a class, with the newest at 0.
    pub fn at(&self, class: Class, place: u16) -> (ObjNo, Name)
        requires { place < length (of_class class self.now).objects }
        ensures { slice_get (of_class class self.now).objects place
            ≡ Some (record { no = result.0; name = result.1 }) }
    {
        self.class(class).at(place)
    }

    /// Opens a device once more, and gives its new open count. `CountFull` comes exactly at 255.
    pub fn open_dev(&mut self, no: ObjNo) -> Result<u8, CountFull>
        requires { IsTrue (has_number self.old.device.objects no) }
        ensures { Opens self.old self.new no result }
    {
        let row = self.row(no);
        if row.opened == u8::MAX {
            return Err(CountFull);
        }
        let opened = row.opened + 1;
        self.put_row(
            no,
            DeviceRow {
                opened,
                rate: row.rate,
            },
        );
        Ok(opened)
    }

    /// Closes a device once, and gives its new open count. `NotOpen` comes exactly at 0, or at 1 for the
    /// device `console`, which is never closed.
    pub fn close_dev(&mut self, no: ObjNo) -> Result<u8, NotOpen>
        requires { IsTrue (has_number self.old.device.objects no) }
        ensures { Closes self.old self.new no result }
    {
        let row = self.row(no);
        let least = if self.is_console(no) { 1 } else { 0 };
        if row.opened <= least {
            return Err(NotOpen);
        }
        let opened = row.opened - 1;
        self.put_row(
            no,
            DeviceRow {
                opened,
                rate: row.rate,
            },
        );
        Ok(opened)
    }

    /// Sets how many bytes of a device's transmit ring leave it at a tick. `NoRate` comes exactly for
    /// the device `console`.
    pub fn set_rate(&mut self, no: ObjNo, rate: u8) -> Result<(), NoRate>
        requires { IsTrue (has_number self.old.device.objects no) }
        ensures { SetsRate self.old self.new no rate result }
    {
        if self.is_console(no) {
            return Err(NoRate);
        }
        let row = self.row(no);
        self.put_row(
            no,
            DeviceRow {
                opened: row.opened,
                rate,
            },
        );
        Ok(())
    }

    /// How often a device is open.
    pub fn opened(&self, no: ObjNo) -> u8
        requires { IsTrue (has_number self.now.device.objects no) }
        ensures { result ≡ (row_of self.now no).opened }
    {
        self.row(no).opened
    }

    /// How many bytes of a device's transmit ring leave it at a tick.
    pub fn rate(&self, no: ObjNo) -> u8
        requires { IsTrue (has_number self.now.device.objects no) }
        ensures { result ≡ (row_of self.now no).rate }
    {
        self.row(no).rate
    }

    // The row of a device.
    fn row(&self, no: ObjNo) -> DeviceRow
        requires { IsTrue (has_number self.now.device.objects no) }
        ensures { result ≡ row_of self.now no }
    {
        self.rows[self.device.place_of(no)]
    }

    // Gives a device another row.
    fn put_row(&mut self, no: ObjNo, row: DeviceRow)
        requires { IsTrue (has_number self.old.device.objects no) }
        ensures { self.new ≡ record self.old { rows = slice_set self.old.rows no row } }
    {
        let place = self.device.place_of(no);
        self.rows[place] = row;
    }

    // Whether it is the device `console`.
    fn is_console(&self, no: ObjNo) -> bool
        ensures { result ≡ is_console self.now no }
    {
        self.device.has_name_at(no, b"console")
    }

    // The objects of a class.
    fn class(&self, class: Class) -> &Container
        ensures { result.now ≡ of_class class self.now }
    {
        match class {
            Class::Thread => &self.thread,
            Class::Sem => &self.sem,
            Class::Event => &self.event,
            Class::Mutex => &self.mutex,
            Class::Mailbox => &self.mailbox,
            Class::MsgQueue => &self.msgqueue,
            Class::Timer => &self.timer,
            Class::Device => &self.device,
        }
    }
}
