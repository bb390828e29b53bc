// The pending bag: at most one (key, index) pair per index, over lent memory, with i64 keys or with f64 keys, as patterns.
// A pair is a word: an index is pending where its word is not 0, and the first index with the largest word has the least pair.
#![tactic(auto)]

ghost use Rattle.std.specs.Prelude.{◌≡◌, ◌-◌, ◌<◌, length, get_or, set};
ghost use Rattle.std.proofs.Math.Option.{none, some};
ghost use Rattle.bag.specs.Keys.{Keys, RightWords, Worded};
ghost use Rattle.bag.specs.Content.{content_of, IsLeast};
ghost use Rattle.bag.specs.Peaks.{peak, Peaks, FirstOf};
ghost use Rattle.bag.specs.Bag.{Bag, NotAbove};

mod floats;
mod ints;
mod peaks;

// A kind of keys.
pub trait Key: Copy {
    // Their order, those that a bag takes, and the word of a pair.
    ghost kind: { Keys Self };

    // The word of the pair (self, v).
    fn word(self, v: usize) -> usize
        requires ok { kind.ok self }
        requires v_bound { v < 1024 }
        ensures { result ≡ kind.word self v };

    // The first index that has the largest word.
    fn first(peaks: &[usize], words: &[usize]) -> usize
        requires peaks { Peaks peaks.now words.now }
        requires nonzero { 0 < peak words.now 0 (length words.now) }
        requires worded { Worded kind words.now }
        ensures { FirstOf words.now 0 (length words.now)
            (peak words.now 0 (length words.now)) result };

    ghost right: { RightWords kind };
}

// Adds index v with key k, or lowers the key that it has to k. Gives the number of pairs then.
// Shut out: an index outside the words, a key above the one that v has, and one that the kind does not take:
// of i64 keys one 2^53 or more away from 0, of f64 keys a NaN and one whose sign is set.
pub fn push_or_lower<K: Key>(
    peaks: &mut [usize],
    words: &mut [usize],
    keys: &mut [K],
    n: usize,
    v: usize,
    k: K,
) -> usize
    requires bag { Bag K.kind peaks.old words.old keys.old n }
    requires v_in_bounds { v < length words.old }
    requires not_above { NotAbove K.kind (content_of words.old keys.old) v k }
    requires ok { K.kind.ok k }
    ensures bag_2 { Bag K.kind peaks.new words.new keys.new result }
    ensures keys_after { content_of words.new keys.new
        ≡ set (content_of words.old keys.old) v (some k) }
{
    let w = k.word(v);
    let r = peaks::add(peaks, words, n, v, w);
    keys[v] = k;
    r
}

// Takes the least pair out, and gives its index; its key is the index's in `keys`. One pair less is left.
// Shut out: an empty bag.
pub fn take_least<K: Key>(peaks: &mut [usize], words: &mut [usize], keys: &[K], n: usize) -> usize
    requires bag { Bag K.kind peaks.old words.old keys.now n }
    requires n_nonzero { 0 < n }
    ensures least { IsLeast K.kind.lt (content_of words.old keys.now) (get_or keys.now result K.kind.none) result }
    ensures bag_2 { Bag K.kind peaks.new words.new keys.now (n - 1) }
    ensures keys_after { content_of words.new keys.now ≡ set (content_of words.old keys.now) result none }
{
    match peaks::lone(peaks, words, n) {
        Some(v) => {
            peaks::empty(peaks, words, v);
            v
        }
        None => {
            let r = K::first(peaks, words);
            peaks::clear(peaks, words, r);
            r
        }
    }
}
