// A map of pairs, told to a receiver pair by pair.
ghost use Rattle.std.specs.Prelude.{[]};
ghost use Rattle.items.specs.Reads.{nothing};
ghost use Rattle.trees.specs.Records.{a_map, nullable};
ghost use Rattle.trees.specs.Steps.{tell_pairs, tell_a_pair};
ghost use Rattle.trees.specs.Tellings.{Tells};
ghost use Rattle.trees.specs.Tree.{Pair};

use crate::pairs::PairReader;
use items::fault::ItemFault;
use items::head::Kind;
use trees::keys::PairKey;
use trees::receiver::Receiver;
use trees::repeated::{Repeated, read_times};
use trees::step::Step;
use trees::telling::Telling;

// The pairs of a map, and the field that holds it.
#[derive(Clone, Copy, Debug, PartialEq, Eq)]
pub struct Pairs<P> {
    pub kind: P,
    pub key: PairKey,
}

impl<P: PairReader> Repeated for Pairs<P> {
    type Fault = ItemFault;

    ghost Tree = { Pair };

    ghost one = { λ s. P.PairReader.one s.kind };

    ghost tell = { λ s act. tell_a_pair act s.key };

    // Reads one pair and tells it, unless its value is null.
    fn read<R: Receiver>(&self, from: &mut Telling<'_, '_, R>) -> Result<(), ItemFault> {
        let pair = self.kind.read_pair(&mut from.buf)?;
        if let Some(value) = pair.value {
            from.take(Step::Pair(self.key, pair.key, value));
        }
        Ok(())
    }
}

// Reads a map of pairs of any kind.
pub fn read_map<P: PairReader, R: Receiver>(
    pairs: &Pairs<P>,
    from: &mut Telling<'_, '_, R>,
) -> Result<(), ItemFault>
    ensures { Tells R.Receiver (λ act. tell_pairs act pairs.now.key) nothing result from.old from.new (a_map (P.PairReader.failing pairs.now.kind) (P.PairReader.one pairs.now.kind)) }
{
    let count = from.buf.read_length(Kind::Map, pairs.kind.causes())?;
    from.take(Step::BeginPairs(pairs.key));
    read_times(pairs, count, from)
}

// Reads such a map, or null for an empty one.
pub fn read_nullable_map<P: PairReader, R: Receiver>(
    pairs: &Pairs<P>,
    from: &mut Telling<'_, '_, R>,
) -> Result<(), ItemFault>
    ensures { Tells R.Receiver (λ act. tell_pairs act pairs.now.key) nothing result from.old from.new (nullable [] (a_map (P.PairReader.failing pairs.now.kind) (P.PairReader.one pairs.now.kind))) }
{
    if from.buf.handle_null_marker() {
        from.take(Step::BeginPairs(pairs.key));
        return Ok(());
    }
    read_map(pairs, from)
}
