//! Reads numbers of users and groups (credentials(7)).
ghost use Rattle.std.specs.Prelude.{◌≡◌};
ghost use Rattle.cred_settings.specs.Ids.{id_number};

use dropin_merge::read_decimal;

/// The greatest id. setresuid(2) and similar calls read the next number as no id.
const GREATEST_ID: u64 = 4_294_967_294;

/// Reads the id of a word: decimal, from 0 to 4,294,967,294.
pub fn read_id(word: &str) -> Option<u32>
    ensures by_its_digits { result ≡ id_number word.now }
{
    let number = read_decimal(word)?;
    if number <= GREATEST_ID {
        Some(number as u32)
    } else {
        None
    }
}
