// SHA-1 digests of FIPS 180-4's examples, version 5 UUIDs, and identities of child orders.
use crate::print;
use pricelevel::{Id, IdKind};
use uuid_v5::Uuid;

fn digest(what: &[u8], message: &[u8]) {
    print::text(b"sha1 ");
    print::text(what);
    print::text(b":");
    print::octets(&sha1_hash::digest(message));
    print::text(b"\n");
}

pub fn digests() {
    digest(b"empty", b"");
    digest(b"abc", b"abc");
    digest(
        b"448 bits",
        b"abcdbcdecdefdefgefghfghighijhijkijkljklmklmnlmnomnopnopq",
    );
    digest(
        b"896 bits",
        b"abcdefghbcdefghicdefghijdefghijkefghijklfghijklmghijklmnhijklmnoijklmnopjklmnopqklmnopqrlmnopqrsmnopqrstnopqrstu",
    );
    million();
}

// A million times the letter a.
fn million() {
    let message = [97u8; 1000000];
    digest(b"a million a", &message);
}

const DNS: Uuid = Uuid {
    high: 0x6ba7b810_9dad11d1,
    low: 0x80b400c0_4fd430c8,
};

const URL: Uuid = Uuid {
    high: 0x6ba7b811_9dad11d1,
    low: 0x80b400c0_4fd430c8,
};

fn uuid(namespace: Uuid, name: &[u8]) {
    print::text(b"uuid ");
    print::text(name);
    print::text(b": ");
    let u = Uuid::new_v5(namespace, name);
    print::word(u.high);
    print::word(u.low);
    print::text(b"\n");
}

// RFC 9562, appendix A.4; the documentation of Python's module uuid; uuidgen of util-linux.
pub fn uuids() {
    uuid(DNS, b"www.example.com");
    uuid(DNS, b"python.org");
    uuid(URL, b"https://example.com/");
}

fn child(namespace: Uuid, kind: IdKind, high: u64, low: u64) {
    print::text(b"child ");
    print::word(namespace.high);
    print::word(namespace.low);
    print::number(kind.number() as u64);
    print::text(b" ");
    print::word(high);
    print::word(low);
    print::text(b": ");
    let id = stop_trigger::stop_trigger_order_id(namespace, Id { kind, high, low });
    let child_kind = id.kind;
    print::word(child_kind.number() as u64);
    print::text(b" ");
    print::word(id.high);
    print::word(id.low);
    print::text(b"\n");
}

pub fn children() {
    let zero = Uuid { high: 0, low: 0 };
    child(DNS, IdKind::Uuid, 0x00112233_44556677, 0x8899aabb_ccddeeff);
    child(DNS, IdKind::Ulid, 0x00112233_44556677, 0x8899aabb_ccddeeff);
    child(
        DNS,
        IdKind::Sequential,
        0x00112233_44556677,
        0x8899aabb_ccddeeff,
    );
    child(zero, IdKind::Sequential, 0, 7);
    child(zero, IdKind::Sequential, 0, 9);
}
