//! Whose name is asked for.
ghost use Rattle.std.specs.Prelude.{◌≡◌, ◌<◌, true, IfSome, length, position};
ghost use Rattle.name_text.specs.Names.{is_same, is_under, labels_part};
ghost use Rattle.answer_core.specs.Outcome.{service_of};

use crate::names::same_name;
use name_text::Name;
use topology_text::Zone;

/// The octets of a name but its last one, the 0.
fn labels_part(name: &Name) -> &[u8]
    ensures { result.now ≡ labels_part name.now }
{
    let octets = name.wire();
    &octets[..octets.len() - 1]
}

/// The number of the service whose labels these are.
fn place_of(services: &[Name], labels: &[u8]) -> Option<usize>
    ensures { result ≡ position (λ service. is_same labels.now (labels_part service)) services.now }
{
    services
        .iter()
        .position(|service| same_name(labels, labels_part(service)))
}

#[tactic(auto, using(crate::proofs::Labels::by_length))]
pub(crate) fn is_apex(zone: &Zone, name: &[u8]) -> bool
    requires { is_under name.now zone.now.apex ≡ true }
    ensures { result ≡ is_same name.now zone.now.apex }
{
    name.len() == zone.apex.wire().len()
}

/// The number of the service whose name a name under the apex is: its label and the apex, which is not compared again.
#[tactic(auto, using(crate::proofs::Labels::no_shorter))]
pub(crate) fn service_of(zone: &Zone, name: &[u8]) -> Option<usize>
    requires { is_under name.now zone.now.apex ≡ true }
    ensures exact { result ≡ service_of zone.now name.now }
    ensures there { IfSome result (λ n. n < length zone.now.services) }
{
    let labels = &name[..name.len() - zone.apex.wire().len()];
    place_of(zone.services.as_slice(), labels)
}
