// The identity of the child order that an elected stop executes as, from orderbook-rs's stop_orders.rs: a UUID of
// version 5 of the book's namespace and the stop's identity, so that a replay with the same namespace has the same
// identities.
#![tactic(auto)]

ghost use Rattle.std.specs.Prelude.{◌≡◌};
ghost use Rattle.stop_trigger.specs.Child.{child_name, child_id};

use pricelevel::{Id, IdKind};
use uuid_v5::Uuid;

// The name that is hashed: the label, the kind's number and the sixteen bytes of the identity.
fn name(kind: u8, bytes: [u8; 16]) -> [u8; 42]
    ensures { result ≡ child_name kind bytes }
{
    [
        b'o', b'r', b'd', b'e', b'r', b'b', b'o', b'o', b'k', b'-', b'r', b's', b'/', b's', b't',
        b'o', b'p', b'-', b't', b'r', b'i', b'g', b'g', b'e', b'r', kind, bytes[0], bytes[1],
        bytes[2], bytes[3], bytes[4], bytes[5], bytes[6], bytes[7], bytes[8], bytes[9], bytes[10],
        bytes[11], bytes[12], bytes[13], bytes[14], bytes[15],
    ]
}

// The identity of the child order of a stop, in the namespace of its book.
pub fn stop_trigger_order_id(namespace: Uuid, stop_id: Id) -> Id
    ensures { result ≡ child_id namespace stop_id }
{
    let kind = stop_id.kind;
    let bytes = Uuid {
        high: stop_id.high,
        low: stop_id.low,
    };
    let name = name(kind.number(), bytes.as_bytes());
    let child = Uuid::new_v5(namespace, &name);
    Id {
        kind: IdKind::Uuid,
        high: child.high,
        low: child.low,
    }
}
