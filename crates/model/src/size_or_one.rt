// Sizes of which there is always one, whatever MAX is: how many states, actions or symbols there are.
ghost use Rattle.std.specs.Prelude.{◌≡◌, ◌≤◌, max};

use crate::refusal::Refusal;

// A number from 1 to MAX; 1 where MAX is 0.
#[derive(Clone, Copy)]
pub struct SizeOrOne<const MAX: u8> {
    count: u8,
    ghost some: { 1 ≤ count },
    ghost few: { count ≤ max 1 MAX },
}

impl<const MAX: u8> SizeOrOne<MAX> {
    // The least size.
    pub fn one() -> SizeOrOne<MAX>
        ensures { result.count ≡ 1 }
    {
        SizeOrOne { count: 1 }
    }

    // The number.
    pub fn get(&self) -> u8
        ensures { result ≡ self.now.count }
    {
        self.count
    }
}

impl<const MAX: u8> TryFrom<u8> for SizeOrOne<MAX> {
    ghost use Rattle.model.specs.Sizes.{MeasuredOrOne};

    type Error = Refusal;

    ghost try_from_gives = { MeasuredOrOne MAX };

    fn try_from(count: u8) -> Result<SizeOrOne<MAX>, Refusal> {
        if count < 1 || count > MAX {
            return Err(Refusal::OutOfRange);
        }
        Ok(SizeOrOne { count })
    }
}
