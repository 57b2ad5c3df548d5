//! Trees of entries by the bits of their hashes (digital search trees; Coffman and Eve, 1970), linked by number. A hash has a
//! bucket, and there a way that begins at the bucket's root and goes on behind each entry by the next bit of the hash, from the
//! lowest up. An entry stands where the way of its hash ended when it was put in, so each entry behind it shares one bit more
//! with it: a way passes at most 64 entries of other hashes. Entries behind an entry are younger.

ghost use Rattle.std.specs.Prelude.{◌≡◌, ℕ, true, false, List, ◌<◌, ◌≤◌, ◌+◌, ◌%◌, length, slice_index, IfSome, IfNone, replicate};
ghost use Rattle.hash_index.specs.declared.tree.Place.TheVariants.{Root};
ghost use Rattle.hash_index.specs.Tree.{link_at, child, IsAt, IsRising, IsLinked, Reaches, Puts, IsEnd};

/// Where a link stands: the root of a bucket, or one of the two links of an entry.
#[derive(Clone, Copy)]
pub enum Place {
    Root(usize),
    Low(usize),
    High(usize),
}

fn bucket(hash: u64, buckets: usize) -> usize
    requires { 0 < buckets }
    ensures is { result ≡ hash % buckets }
    ensures below { result < buckets }
{
    (hash % buckets as u64) as usize
}

// The root of a hash's bucket; 0 where there is no bucket.
fn root(roots: &[usize], hash: u64) -> usize
    ensures { result ≡ slice_index roots.now (hash % length roots.now) }
{
    if roots.is_empty() {
        return 0;
    }
    roots[bucket(hash, roots.len())]
}

fn child_of(number: usize, rest: u64) -> Place
    ensures { result ≡ child rest number }
{
    if rest % 2 == 1 {
        Place::High(number)
    } else {
        Place::Low(number)
    }
}

// The link behind an entry.
fn next(low: &[usize], high: &[usize], number: usize, rest: u64) -> usize
    requires low { number < length low.now }
    requires high { number < length high.now }
    ensures { (roots : List ℕ) → result ≡ link_at low.now high.now roots (child rest number) }
{
    if rest % 2 == 1 {
        high[number]
    } else {
        low[number]
    }
}

// Writes a link.
fn put(place: Place, link: usize, low: &mut [usize], high: &mut [usize], roots: &mut [usize])
    requires { IsAt low.old high.old roots.old place }
    ensures { Puts (link_at low.old high.old roots.old) (link_at low.new high.new roots.new) place link }
{
    match place {
        Place::Root(at) => roots[at] = link,
        Place::Low(number) => low[number] = link,
        Place::High(number) => high[number] = link,
    }
}

/// An entry that has a hash and passes a test.
pub fn find<F: Fn(usize) -> bool>(
    hashes: &[u64],
    low: &[usize],
    high: &[usize],
    roots: &[usize],
    hash: u64,
    test: F,
) -> Option<usize>
    requires linked { IsLinked (length hashes.now) hashes.now low.now high.now roots.now }
    requires callable { (k : ℕ) → k < length hashes.now → F.pre test k }
    ensures some { IfSome result (λ k. (k < length hashes.now) × (slice_index hashes.now k ≡ hash) × F.post test k true) }
    ensures none { IfNone result ((k : ℕ) → k < length hashes.now → slice_index hashes.now k ≡ hash → F.post test k false) }
{
    let mut at = root(roots, hash);
    let mut rest = hash;
    while at > 0 {
        let number = at - 1;
        if hashes[number] == hash && test(number) {
            return Some(number);
        }
        at = next(low, high, number, rest);
        rest /= 2;
    }
    None
}

// The place on the way of a hash that has the wanted link: one more than the number of an entry, or 0 for the way's end.
fn place_of(low: &[usize], high: &[usize], roots: &[usize], hash: u64, wanted: usize) -> Place
    requires buckets { 0 < length roots.now }
    requires pairs { length low.now ≤ length high.now }
    requires rising { IsRising (length low.now) (link_at low.now high.now roots.now) }
    requires reaches { Reaches (link_at low.now high.now roots.now) hash (slice_index roots.now (hash % length roots.now)) wanted }
    ensures is { IsEnd (length low.now) (link_at low.now high.now roots.now) hash (Root (hash % length roots.now)) wanted result }
    ensures at { IsAt low.now high.now roots.now result }
{
    let first = bucket(hash, roots.len());
    let mut place = Place::Root(first);
    let mut at = roots[first];
    let mut rest = hash;
    while at != wanted {
        place = child_of(at - 1, rest);
        at = next(low, high, at - 1, rest);
        rest /= 2;
    }
    place
}

/// Puts the next entry where the way of its hash ends.
pub fn link(
    hashes: &[u64],
    number: usize,
    low: &mut [usize],
    high: &mut [usize],
    roots: &mut [usize],
)
    requires within { number < length hashes.now }
    requires buckets { 0 < length roots.old }
    requires low { number < length low.old }
    requires pairs { length high.old ≡ length low.old }
    requires linked { IsLinked number hashes.now low.old high.old roots.old }
    ensures { IsLinked (number + 1) hashes.now low.new high.new roots.new }
{
    let place = place_of(low, high, roots, hashes[number], 0);
    put(place, number + 1, low, high, roots);
}

/// Puts all entries into empty trees.
pub fn link_all(hashes: &[u64], low: &mut [usize], high: &mut [usize], roots: &mut [usize])
    requires buckets { 0 < length roots.old }
    requires low { length hashes.now ≤ length low.old }
    requires pairs { length high.old ≡ length low.old }
    requires linked { IsLinked 0 hashes.now low.old high.old roots.old }
    ensures { IsLinked (length hashes.now) hashes.now low.new high.new roots.new }
{
    for number in 0..hashes.len() {
        link(hashes, number, low, high, roots);
    }
}

// Takes the youngest entry out of its tree.
fn unlink(hashes: &[u64], number: usize, low: &mut [usize], high: &mut [usize], roots: &mut [usize])
    requires within { number < length hashes.now }
    requires pairs { length high.old ≡ length low.old }
    requires linked { IsLinked (number + 1) hashes.now low.old high.old roots.old }
    ensures { IsLinked number hashes.now low.new high.new roots.new }
{
    let place = place_of(low, high, roots, hashes[number], number + 1);
    put(place, 0, low, high, roots);
}

/// Takes the entries from a number on out of their trees.
pub fn unlink_from(
    hashes: &[u64],
    len: usize,
    low: &mut [usize],
    high: &mut [usize],
    roots: &mut [usize],
)
    requires within { len ≤ length hashes.now }
    requires pairs { length high.old ≡ length low.old }
    requires linked { IsLinked (length hashes.now) hashes.now low.old high.old roots.old }
    ensures { IsLinked len hashes.now low.new high.new roots.new }
{
    let mut number = hashes.len();
    while number > len {
        number -= 1;
        unlink(hashes, number, low, high, roots);
    }
}
