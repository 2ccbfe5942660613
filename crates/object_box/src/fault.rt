use rt_base::ObjNo;

/// Why an object isn't made.
#[derive(Clone, Copy, Debug, PartialEq, Eq)]
pub enum Make {
    /// An object of the class has the name, with this number.
    Taken(ObjNo),
    /// The class holds as many objects as it may, which are so many.
    ClassFull(u16),
}

/// A device is open 255 times.
#[derive(Clone, Copy, Debug, PartialEq, Eq)]
pub struct CountFull;

/// A device is not open, or it is the console, which stays open.
#[derive(Clone, Copy, Debug, PartialEq, Eq)]
pub struct NotOpen;

/// The console has no rate.
#[derive(Clone, Copy, Debug, PartialEq, Eq)]
pub struct NoRate;
