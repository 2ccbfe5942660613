/// How many objects each class may hold.
#[derive(Clone, Copy, Debug, PartialEq, Eq)]
pub struct ClassLimits {
    pub thread: u16,
    pub sem: u16,
    pub event: u16,
    pub mutex: u16,
    pub mailbox: u16,
    pub msgqueue: u16,
    pub timer: u16,
    pub device: u16,
}
