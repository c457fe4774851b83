//! Comparing names on the wire.
ghost use Rattle.std.specs.Prelude.{◌≡◌, ℕ, List};
ghost use Rattle.std.specs.List.{list_any};
ghost use Rattle.name_text.specs.Wire.{tails, wire};
ghost use Rattle.name_text.specs.Names.{is_same, is_under};

/// Whether two names are the same, whatever the case of their ASCII letters (RFC 4343). Both are octets on the wire.
pub fn same_name(name: &[u8], other: &[u8]) -> bool
    ensures { result ≡ is_same name.now other.now }
{
    name == other || name.eq_ignore_ascii_case(other)
}

/// Whether a name is the apex or stands below it by whole labels, whatever the case of ASCII letters. Both are octets on the wire.
pub fn under(name: &[u8], apex: &[u8]) -> bool
    ensures octets { result ≡ is_under name.now apex.now }
    ensures labels { (labels : List (List ℕ)) → name.now ≡ wire labels → result
        ≡ list_any (λ rest. is_same (wire rest) apex.now) (tails labels) }
{
    let mut at = 0;
    while at < name.len() {
        if same_name(&name[at..], apex) {
            return true;
        }
        at += 1 + usize::from(name[at]);
    }
    false
}
