// Pairs of two numbers each, one behind the other, and chains through those whose numbers in a column are in one bucket: a chain leads from
// a pair to the next of its bucket, so that a walk over the pairs of one line, of one transaction or of one history passes by most others.
// Pairs behind the first CHAINED are walked one by one. Chains and slots are numbers in arrays of a fixed length, since there is no heap;
// pairs are numbers, since C lends them.
ghost use Rattle.std.specs.Prelude.{◌≡◌, suc, ◌≤◌, ◌<◌};
ghost use Rattle.removal.specs.Chains.{count_of, key_at, ChainedOf, Chained, Filled, Starts, FoundIf, Ring, CanFollow, after_in};

// How many buckets there are: a number is in the bucket of its remainder.
pub const BUCKETS: usize = 4096;

// How many pairs are chained.
pub const CHAINED: usize = 12288;

// The first pair of each bucket, and behind these the next pair of its bucket for each pair.
pub type Chains = [u16; BUCKETS + CHAINED];

// How many pairs are chained, of `count`.
fn chained(count: usize) -> usize
    ensures { ChainedOf count result }
{
    count.min(CHAINED)
}

// Chains of which every bucket begins at m.
fn empty_chains(m: u16) -> Chains
    ensures { Filled m 4096 result }
{
    [m; BUCKETS + CHAINED]
}

// The chains of the pairs by column c.
pub fn chain(words: &[u64], c: usize) -> Chains
    requires { c ≤ 1 }
    ensures { Chained words.now c result }
{
    let m = chained(words.len() / 2);
    let mut chains = empty_chains(m as u16);
    for p in (0..m).rev() {
        let b = (words[2 * p + c] % 4096) as usize;
        chains[BUCKETS + p] = chains[b];
        chains[b] = p as u16;
    }
    chains
}

// Where a chain leads from pair p.
fn after(chains: &Chains, p: usize) -> usize
    requires { CanFollow chains.now p }
    ensures { result ≡ after_in chains.now p }
{
    if p < CHAINED {
        usize::from(chains[BUCKETS + p])
    } else {
        p + 1
    }
}

// The first pair at or behind `from` that has the key in column c, if there is one. No index is counted: the chain tells the next.
fn find(words: &[u64], chains: &Chains, c: usize, key: u64, from: usize) -> Option<usize>
    requires { Chained words.now c chains.now × (c ≤ 1) × Starts words.now c key from }
    ensures { FoundIf words.now c key from result }
{
    let mut q = from;
    while q < words.len() / 2 {
        if words[2 * q + c] == key {
            return Some(q);
        }
        q = after(chains, q);
    }
    None
}

// The first pair that has the key in column c, if there is one.
pub fn first(words: &[u64], chains: &Chains, c: usize, key: u64) -> Option<usize>
    requires { Chained words.now c chains.now × (c ≤ 1) }
    ensures { FoundIf words.now c key 0 result }
{
    let b = (key % 4096) as usize;
    find(words, chains, c, key, usize::from(chains[b]))
}

// The next pair behind p that has the key of p in column c, if there is one.
pub fn further(words: &[u64], chains: &Chains, c: usize, p: usize) -> Option<usize>
    requires { Chained words.now c chains.now × (c ≤ 1) × (p < count_of words.now) }
    ensures { FoundIf words.now c (key_at words.now c p) (suc p) result }
{
    find(words, chains, c, words[2 * p + c], after(chains, p))
}

// The next pair with the transaction of p, and behind the last one the first again.
pub fn mate(pairs: &[u64], chains: &Chains, p: usize) -> usize
    requires { Chained pairs.now 1 chains.now × (p < count_of pairs.now) }
    ensures { Ring pairs.now p result }
{
    match further(pairs, chains, 1, p) {
        Some(q) => q,
        None => first(pairs, chains, 1, pairs[2 * p + 1]).unwrap(),
    }
}
