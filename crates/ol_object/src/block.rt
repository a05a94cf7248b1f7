//! A block of a tape: 64 bytes of head, 2,048 of payload, and the SHA-256 digest of both.

ghost use Rattle.std.specs.Prelude.{◌≡◌, ◌+◌, ◌≤◌, ◌++◌, length, take};
ghost use Rattle.sha2.specs.Sha256.{sha256};
ghost use Rattle.ol_object.specs.Bytes.{block_bytes, head_bytes};

use ol_bytes::put;
use sha2::{Digest, Sha256};

/// The bytes of a block's head.
pub const HEAD_LENGTH: usize = 64;

/// The bytes of a block's payload, of which those that are not used are zero.
pub const PAYLOAD_LENGTH: usize = 2048;

/// The bytes of a whole block, with the digest behind the payload.
pub const BLOCK_LENGTH: usize = 2144;

/// The bytes that the digest is over: the head and the payload.
const DIGESTED_LENGTH: usize = 2112;

/// The fields of a block's head.
#[derive(Clone, Copy, Debug, PartialEq, Eq)]
pub struct Block {
    /// What the block is: 1 a header, 2 a page, 3 records, 4 a trailer, 5 a mark.
    pub kind: u8,
    /// What its object is: 1 an archive, 2 a log, 3 a mark.
    pub object: u8,
    /// The incarnation of the installation that wrote the block.
    pub incarnation: u64,
    /// The number of the archive, or the unique number of the log file; of a mark the new incarnation.
    pub number: u64,
    /// The block's place in its object, from 0.
    pub index: u32,
    /// How many bytes of the payload are used.
    pub used: u32,
    /// The cut, in the header and the trailer of an archive; the space, in the block of a page.
    pub a: u64,
    /// The low, in the header and the trailer of an archive; the page, in the block of a page.
    pub b: u64,
    /// The level, in the header and the trailer of an archive; the page's stamp, in the block of a page.
    pub c: u64,
}

/// Writes the head at the front, and gives the index behind it.
fn put_head(out: &mut [u8], head: &Block) -> usize
    requires { 64 ≤ length out.old }
    ensures next { result ≡ 64 }
    ensures front { take 64 out.new ≡ head_bytes head.now }
{
    let at = put(out, 0, b"OLB1");
    let at = put(out, at, &[head.kind, head.object, 0, 0]);
    let at = put(out, at, &head.incarnation.to_be_bytes());
    let at = put(out, at, &head.number.to_be_bytes());
    let at = put(out, at, &head.index.to_be_bytes());
    let at = put(out, at, &head.used.to_be_bytes());
    let at = put(out, at, &head.a.to_be_bytes());
    let at = put(out, at, &head.b.to_be_bytes());
    let at = put(out, at, &head.c.to_be_bytes());
    put(out, at, &[0; 8])
}

/// Ends a block with the digest of all that stands before it.
fn seal(out: &mut [u8; BLOCK_LENGTH])
    ensures { out.new ≡ take 2112 out.old ++ sha256 (take 2112 out.old) }
{
    let digest = Sha256::digest(&out[..DIGESTED_LENGTH]);
    out[DIGESTED_LENGTH..].copy_from_slice(&digest);
}

/// Writes the block of a head and a payload over all of `out`. The payload is copied once, straight to
/// its place. That it is zero behind its used bytes, and that `head.used` counts these, is the caller's.
pub fn encode(head: &Block, payload: &[u8; PAYLOAD_LENGTH], out: &mut [u8; BLOCK_LENGTH])
    ensures { out.new ≡ block_bytes head.now payload.now }
{
    let at = put_head(out, head);
    put(out, at, payload);
    seal(out);
}
