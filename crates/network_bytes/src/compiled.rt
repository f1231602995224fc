// The entries of a hierarchy and of buckets.
use crate::ReadStop;
use crate::entry::Entry;
use crate::numbers::{long, put_long, put_word, word};
use bucket_walks::Bucket;
use move_model::{NoMemory, NodeNo, StopNo};
use std::alloc::Global;
use walk_hierarchy::UpDown;

impl Entry for UpDown {
    ghost use Rattle.network_bytes.specs.Forms.{up_down_form, up_down_at};

    ghost form = { up_down_form };

    ghost front = { up_down_at };

    ghost fits = { λ _. Unit {0} };

    #[tactic(auto, unfolding(crate::specs::Forms::up_down_at))]
    fn read(_alloc: Global, bytes: &[u8]) -> Result<(UpDown, &[u8]), ReadStop> {
        let (from, rest) = word(bytes)?;
        let (to, rest) = word(rest)?;
        let (seconds, rest) = long(rest)?;
        let (middle, rest) = word(rest)?;
        let arc = UpDown {
            from: NodeNo(from),
            to: NodeNo(to),
            seconds,
            middle: NodeNo(middle),
        };
        Ok((arc, rest))
    }

    fn put(&self, out: &mut Vec<u8>) -> Result<(), NoMemory> {
        put_word(out, self.from.0)?;
        put_word(out, self.to.0)?;
        put_long(out, self.seconds)?;
        put_word(out, self.middle.0)
    }
}

impl Entry for Bucket {
    ghost use Rattle.network_bytes.specs.Forms.{bucket_form, bucket_at};

    ghost form = { bucket_form };

    ghost front = { bucket_at };

    ghost fits = { λ _. Unit {0} };

    #[tactic(auto, unfolding(crate::specs::Forms::bucket_at))]
    fn read(_alloc: Global, bytes: &[u8]) -> Result<(Bucket, &[u8]), ReadStop> {
        let (node, rest) = word(bytes)?;
        let (stop, rest) = word(rest)?;
        let (seconds, rest) = long(rest)?;
        let entry = Bucket {
            node: NodeNo(node),
            stop: StopNo(stop),
            seconds,
        };
        Ok((entry, rest))
    }

    fn put(&self, out: &mut Vec<u8>) -> Result<(), NoMemory> {
        put_word(out, self.node.0)?;
        put_word(out, self.stop.0)?;
        put_long(out, self.seconds)
    }
}
