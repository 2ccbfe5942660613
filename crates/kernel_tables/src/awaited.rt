use rt_plain::Call;

/// What a thread waits for.
#[derive(Drop)]
pub enum Awaited {
    /// The end of the call that it made.
    Call(Call),
    /// Bytes of the console.
    Console,
    /// The work of a soft timer.
    Works,
}
