//! What the kernel reads in a reply is what was written.
ghost use Rattle.std.specs.Prelude.{◌≡◌, ◌+◌, ◌-◌, ◌<◌, ◌^◌, [], Err, Ok, length};
ghost use Rattle.fuse_wire.specs.ReadBack.{IsReadSo};
ghost use Rattle.fuse_wire.specs.Refusals.{number_of};
ghost use Rattle.fuse_wire.specs.Replies.{body_bytes, spell_reply};
ghost use Rattle.fuse_wire.specs.declared.bodies.Body.{Body};
ghost use Rattle.fuse_wire.specs.declared.errors.Errno.{Errno};
ghost use Rattle.fuse_wire.specs.declared.numbers.Unique.{Unique};

/// A reply says its length, its request, its body and whether the call was done, and the number of a refusal is below 0 in two's
/// complement: a law.
pub fn a_reply_is_read_back()
    ensures done { (unique : Unique) (body : Body) → unique.0 < 2 ^ 64 → 16 + length (body_bytes body) < 2 ^ 32
        → IsReadSo unique.0 0 (body_bytes body) (spell_reply unique (Ok body)) }
    ensures refused { (unique : Unique) (error : Errno) → unique.0 < 2 ^ 64
        → (0 < number_of error) × IsReadSo unique.0 (2 ^ 32 - number_of error) [] (spell_reply unique (Err error)) }
{}
