// Why the program ends with an error. An enum of its own and not the error of `anyhow`: where a write fails, the program
// prints this enum.
use model::Refusal;
use std::io;

#[derive(Debug, Drop)]
pub enum Failure {
    Refused(Refusal),
    Printing(io::Error),
    Different(u32),
}

impl From<Refusal> for Failure {
    fn from(refusal: Refusal) -> Failure {
        Failure::Refused(refusal)
    }
}

impl From<io::Error> for Failure {
    fn from(error: io::Error) -> Failure {
        Failure::Printing(error)
    }
}
