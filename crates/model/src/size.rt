// Sizes: how many states, actions or symbols there are.
ghost use Rattle.std.specs.Prelude.{◌≡◌, ◌≤◌};

use crate::refusal::Refusal;
use crate::size_or_one::SizeOrOne;

// A number from 1 to MAX; where MAX is 0 there is none.
#[derive(Clone, Copy)]
pub struct Size<const MAX: u8> {
    count: u8,
    ghost some: { 1 ≤ count },
    ghost few: { count ≤ MAX },
}

impl<const MAX: u8> Size<MAX> {
    // The number.
    pub fn get(&self) -> u8
        ensures { result ≡ self.now.count }
    {
        self.count
    }
}

impl<const MAX: u8> TryFrom<u8> for Size<MAX> {
    ghost use Rattle.model.specs.Sizes.{Measured};

    type Error = Refusal;

    ghost try_from_gives = { Measured MAX };

    fn try_from(count: u8) -> Result<Size<MAX>, Refusal> {
        let size: SizeOrOne<MAX> = count.try_into()?;
        Ok(Size { count: size.get() })
    }
}

#[cfg(test)]
mod tests {
    use super::*;

    fn measured<const MAX: u8>(count: u8) -> Result<u8, Refusal> {
        Size::<MAX>::try_from(count).map(|size| size.get())
    }

    #[test]
    fn numbers_in_range_are_sizes(rt: HostRuntime) {
        let refused = Err(Refusal::OutOfRange);
        for (count, expected) in [
            (0, refused),
            (1, Ok(1)),
            (16, Ok(16)),
            (17, refused),
            (255, refused),
        ] {
            assert_eq!(rt; measured::<16>(count), expected, "of 16 at {count}");
        }
        for (count, expected) in [(0, refused), (1, Ok(1)), (2, refused)] {
            assert_eq!(rt; measured::<1>(count), expected, "of 1 at {count}");
        }
        assert_eq!(rt; measured::<255>(255), Ok(255));
    }

    #[test]
    fn of_none_there_is_no_size(rt: HostRuntime) {
        for count in [0, 1, 255] {
            assert_eq!(rt;
                measured::<0>(count),
                Err(Refusal::OutOfRange),
                "at {count}"
            );
        }
    }
}
