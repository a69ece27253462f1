// Examples of what the crates promise, run as tests by `rt test` in this folder.
#![tactic(auto)]

ghost use Rattle.std.specs.Prelude.{◌≡◌};
ghost use Rattle.bench.specs.Reason.{reason_of, told_of};

use bus::refusal::Refusal;

#[cfg(test)]
mod board_examples;
#[cfg(test)]
mod bus_examples;
#[cfg(test)]
mod cases;
#[cfg(test)]
mod dryer_examples;
#[cfg(test)]
mod edge_examples;
#[cfg(test)]
mod layer_examples;
#[cfg(test)]
mod probe_examples;
#[cfg(test)]
mod refusal_examples;
#[cfg(test)]
mod span_examples;
#[cfg(test)]
mod storage_examples;
#[cfg(test)]
mod text_examples;
pub mod through;

// What a refusal tells its caller.
#[derive(Clone, Copy, Debug, PartialEq, Eq)]
pub struct Reason {
    pub number: u8,
    pub address: u32,
    pub tag: u8,
}

impl From<Refusal> for Reason {
    ghost from_gives = { λ refusal reason. reason ≡ reason_of refusal };

    fn from(refusal: Refusal) -> Reason {
        Reason {
            number: refusal.number(),
            address: refusal.address(),
            tag: refusal.tag(),
        }
    }
}

// The answer of a call, with a refusal as what it tells its caller.
pub fn told<T>(answer: Result<T, Refusal>) -> Result<T, Reason>
    ensures { result ≡ told_of answer }
{
    answer.map_err(Reason::from)
}
