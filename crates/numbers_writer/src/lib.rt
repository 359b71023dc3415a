// Putting a number at a place of an output.
#![tactic(auto)]

ghost use Rattle.std.specs.Prelude.{◌≡◌};
ghost use Rattle.wire.specs.Bytes.{be};
ghost use Rattle.writing.specs.Write.{put_at};

use numbers::WireNumber;

// A number that can be written.
pub trait PutNumber: WireNumber {
    // Puts the bytes of the number at a place, the most significant first; where they do not fit, nothing changes.
    fn put(self, out: &mut [u8], at: usize)
        ensures { out.new ≡ put_at out.old at (be Self.WIDTH (Self.value self)) };
}

impl PutNumber for u8 {
    #[tactic(auto, using(wire::proofs::Bytes::be_one))]
    fn put(self, out: &mut [u8], at: usize) {
        let bytes: [u8; 1] = [self];
        writing::put_bytes(out, at, &bytes);
    }
}

impl PutNumber for u16 {
    #[tactic(auto, using(crate::proofs::Bytes::two))]
    fn put(self, out: &mut [u8], at: usize) {
        let bytes: [u8; 2] = self.to_be_bytes();
        writing::put_bytes(out, at, &bytes);
    }
}

impl PutNumber for u32 {
    #[tactic(auto, using(crate::proofs::Bytes::four))]
    fn put(self, out: &mut [u8], at: usize) {
        let bytes: [u8; 4] = self.to_be_bytes();
        writing::put_bytes(out, at, &bytes);
    }
}

impl PutNumber for u64 {
    #[tactic(auto, using(crate::proofs::Bytes::eight))]
    fn put(self, out: &mut [u8], at: usize) {
        let bytes: [u8; 8] = self.to_be_bytes();
        writing::put_bytes(out, at, &bytes);
    }
}
