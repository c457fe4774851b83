//! The data of a zone's SOA record.
ghost use Rattle.std.specs.Prelude.{◌≡◌, ◌+◌, ◌≤◌, ◌++◌, length};
ghost use Rattle.arrayvec.specs.ArrayVec.{array_vec_len};
ghost use Rattle.byteorder.specs.Endian.{big_bytes};
ghost use Rattle.topology_text.specs.Soa.{soa_content};

use arrayvec::ArrayVec;
use byteorder::{BigEndian, ByteOrder};
use name_text::Name;
use std::marker::Model;

/// Two names of at most 64 octets, and five numbers of 4.
const CONTENT_SIZE: usize = 148;

/// The data of an SOA record as they go on the wire (RFC 1035 section 3.3.13), with no pointers.
#[derive(Debug, Drop)]
pub struct SoaContent {
    octets: ArrayVec<u8, CONTENT_SIZE>,
}

impl Model for SoaContent {
    ghost use Rattle.std.specs.Prelude.{List, ℕ};

    ghost Value = { List ℕ };

    ghost view = { λ c. c.octets.items };
}

/// The numbers of an SOA record, in the order in which they stand there.
#[derive(Clone, Copy)]
pub(crate) struct SoaNumbers {
    /// The version of the zone.
    pub(crate) serial: u32,
    /// Seconds until a secondary looks for a new version.
    pub(crate) refresh: u32,
    /// Seconds until it tries again where that failed.
    pub(crate) retry: u32,
    /// Seconds after which it gives the zone up.
    pub(crate) expire: u32,
    /// Seconds for which the answer that something is not there may be kept.
    pub(crate) minimum: u32,
}

impl SoaContent {
    /// The content for these names and numbers.
    pub(crate) fn new(mname: &Name, rname: &Name, numbers: SoaNumbers) -> SoaContent
        requires mname { length mname.now ≤ 64 }
        requires rname { length rname.now ≤ 64 }
        ensures { result ≡ soa_content mname.now rname.now
            numbers.serial numbers.refresh numbers.retry numbers.expire numbers.minimum }
    {
        let mut octets = ArrayVec::new();
        let _ = octets.try_extend_from_slice(mname.wire());
        let _ = octets.try_extend_from_slice(rname.wire());
        put_number(&mut octets, numbers.serial);
        put_number(&mut octets, numbers.refresh);
        put_number(&mut octets, numbers.retry);
        put_number(&mut octets, numbers.expire);
        put_number(&mut octets, numbers.minimum);
        SoaContent { octets }
    }

    /// The octets.
    pub fn as_slice(&self) -> &[u8]
        ensures { result.now ≡ self.now }
    {
        self.octets.as_slice()
    }
}

/// Appends a number of 32 bits, its high octet first.
fn put_number(octets: &mut ArrayVec<u8, CONTENT_SIZE>, number: u32)
    requires { array_vec_len octets.old + 4 ≤ 148 }
    ensures items { octets.new.items ≡ octets.old.items ++ big_bytes 4 number }
    ensures len { array_vec_len octets.new ≡ array_vec_len octets.old + 4 }
{
    let mut written = [0; 4];
    BigEndian::write_u32(&mut written, number);
    let _ = octets.try_extend_from_slice(&written);
}
