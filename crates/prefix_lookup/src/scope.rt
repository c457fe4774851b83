//! How many bits of a number decide that it is in its range.
ghost use Rattle.std.specs.Prelude.{◌≡◌, ℕ, ◌<◌, ◌≤◌, ◌^◌, List, IfSome, MatchOption};
ghost use Rattle.addr_text.specs.declared.address.Prefix.{Prefix};
ghost use Rattle.map_model.specs.declared.instance.GroupId.{GroupId};
ghost use Rattle.prefix_lookup.specs.Family.{address_in, bits_in};
ghost use Rattle.prefix_lookup.specs.Parting.{PartsAt};
ghost use Rattle.prefix_lookup.specs.Ranges.{IsIn, IsRangeOf};
ghost use Rattle.prefix_lookup.specs.Scope.{IsScope};

use crate::family::Family;
use crate::ranges::Range;

/// How many first bits of two different numbers it takes to tell them apart.
fn bits_to_part(family: Family, a: u128, b: u128) -> u8
    requires a { a < 2 ^ bits_in family }
    requires b { b < 2 ^ bits_in family }
    requires apart { a ≡ b → ⊥ }
    ensures { PartsAt (bits_in family) a b result }
{
    let beyond = 128 - family.bits();
    (a ^ b).leading_zeros() as u8 - beyond + 1
}

/// How many first bits it takes to tell a number from another, if there is one.
fn bits_to_part_from(family: Family, number: u128, other: Option<u128>) -> u8
    requires number { number < 2 ^ bits_in family }
    requires other { IfSome other (λ m. m < 2 ^ bits_in family) }
    requires apart { IfSome other (λ m. number ≡ m → ⊥) }
    ensures { MatchOption other (result ≡ 0) (λ m. PartsAt (bits_in family) number m result) }
{
    match other {
        Some(other) => bits_to_part(family, number, other),
        None => 0,
    }
}

/// How many first bits tell a number from those right beside its range.
pub fn scope_in(family: Family, number: u128, range: Range) -> u8
    requires number { number < 2 ^ bits_in family }
    requires inside { IsIn family number range }
    ensures { (table : List (Prefix × GroupId)) → IsRangeOf family table number range
        → IsScope table (address_in family number) result }
{
    let before = bits_to_part_from(family, number, range.start.checked_sub(1));
    let after = bits_to_part_from(family, number, range.end);
    before.max(after)
}
