/// What an interrupt field waits for at its input (SystemRDL 2.0, 9.9).
#[derive(Clone, Copy, Debug, PartialEq, Eq)]
pub enum Trigger {
    Level,
    Posedge,
    Negedge,
    Bothedge,
    Nonsticky,
}
