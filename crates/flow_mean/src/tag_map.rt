ghost use Rattle.std.specs.Prelude.{◌≡◌, ◌≤◌, Some, length, slice_get, MatchOption, IfOk};
ghost use Rattle.flow_mean.specs.Maps.{map_of};

use flow_item::{Items, NoMemory, Val};

/// Tags, each with a value.
pub type Pairs = Items<(u64, Val)>;

/// A finite map from tags to values.
#[derive(Debug, Drop)]
pub struct TagMap {
    /// By rising tag, each tag once.
    pairs: Pairs,
}

impl TagMap {
    pub(crate) fn of(pairs: Pairs) -> TagMap
        ensures { result.pairs ≡ pairs }
    {
        TagMap { pairs }
    }

    /// The number of tags.
    pub fn len(&self) -> usize
        ensures { result ≡ length self.now.pairs }
    {
        self.pairs.len()
    }

    /// The pair at place `k` by rising tag, none exactly past the end.
    pub fn get(&self, k: usize) -> Option<(u64, &Val)>
        ensures { MatchOption
            result
            (length self.now.pairs ≤ k)
            (λ p. slice_get self.now.pairs k ≡ Some (p.0, p.1.now)) }
    {
        match self.pairs.get(k) {
            Some(pair) => Some((pair.0, &pair.1)),
            None => None,
        }
    }
}

/// The pairs by rising tag, the first of each tag. In n log n time, and linear where they rise already.
pub fn sorted(pairs: Pairs) -> Result<Pairs, NoMemory>
    ensures { IfOk result (λ m. m ≡ map_of pairs) }
{
    let mut row = pairs.into_vec();
    row.sort_by_key(|pair| pair.0)?;
    row.dedup_by_key(|pair| pair.0);
    Ok(Pairs::from_vec(row))
}
