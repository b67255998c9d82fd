// The kinds of pairs.
ghost use Rattle.std.specs.Prelude.{◌≡◌, ℕ, List};
ghost use Rattle.items.specs.declared.fault.DecodeError.TheVariants.{InvalidFormat};
ghost use Rattle.items.specs.declared.fault.ItemFault.{ItemFault as Fault};
ghost use Rattle.items.specs.declared.item.ItemKind.TheVariants.{Text as AsText, Bytes as AsBytes, Index as AsIndex, Double as AsDouble};
ghost use Rattle.items.specs.declared.length.Causes.{Causes as AllCauses};
ghost use Rattle.items.specs.Buffers.{ReadsOn};
ghost use Rattle.items.specs.Items.{all_causes, value_causes};
ghost use Rattle.items.specs.Reads.{Outcome};
ghost use Rattle.trees.specs.Records.{a_pair, text_text};
ghost use Rattle.trees.specs.Tree.{Pair};
ghost use Rattle.maps.specs.Pairs.{pair_of};

use items::buffer::Buffer;
use items::fault::{DecodeError, ItemFault};
use items::item::{Item, ItemKind};
use items::length::Causes;

// A pair as it was read; no value for null.
#[derive(Clone, Copy, Debug, PartialEq, Eq)]
pub struct PairRead<'a> {
    pub key: Item<'a>,
    pub value: Option<Item<'a>>,
}

// A kind of pairs.
pub trait PairReader {
    // what one pair is, at a place in the bytes
    ghost one: { Self → List ℕ → ℕ → Outcome Fault Pair };

    // the causes of a failing map length
    ghost failing: { Self → AllCauses };

    // The causes of a failing length of a map of such pairs.
    fn causes(&self) -> Causes
        ensures { result ≡ failing self.now };

    fn read_pair<'a>(&self, buf: &mut Buffer<'a>) -> Result<PairRead<'a>, ItemFault>
        ensures { ReadsOn pair_of result buf.old buf.new (one self.now) };
}

// Text with text, where null drops the pair.
// A kind of its own beside `ItemPairs`, which would need a flag for that, asked at every pair, and be no plainer.
#[derive(Clone, Copy, Debug, PartialEq, Eq)]
pub struct TextTexts;

impl PairReader for TextTexts {
    ghost one = { λ _. text_text };

    ghost failing = { λ _. all_causes InvalidFormat };

    fn causes(&self) -> Causes {
        Causes::all(DecodeError::InvalidFormat)
    }

    fn read_pair<'a>(&self, buf: &mut Buffer<'a>) -> Result<PairRead<'a>, ItemFault> {
        let key = buf.read_item(ItemKind::Text)?;
        if buf.handle_null_marker() {
            return Ok(PairRead { key, value: None });
        }
        let value = buf.read_item(ItemKind::Text)?;
        Ok(PairRead {
            key,
            value: Some(value),
        })
    }
}

// An item of one kind with an item of another, neither of which is null.
#[derive(Clone, Copy, Debug, PartialEq, Eq)]
pub struct ItemPairs {
    key: ItemKind,
    value: ItemKind,
    causes: Causes,
}

impl ItemPairs {
    fn of(key: ItemKind, value: ItemKind, causes: Causes) -> ItemPairs
        ensures { result ≡ record { key = key; value = value; causes = causes } }
    {
        ItemPairs { key, value, causes }
    }

    // Text with metric.
    pub fn text_metrics() -> ItemPairs
        ensures { result ≡ record { key = AsText; value = AsDouble; causes = value_causes } }
    {
        ItemPairs::of(ItemKind::Text, ItemKind::Double, Causes::of_values())
    }

    // Text with byte part.
    pub fn text_bytes() -> ItemPairs
        ensures { result ≡ record { key = AsText; value = AsBytes; causes = value_causes } }
    {
        ItemPairs::of(ItemKind::Text, ItemKind::Bytes, Causes::of_values())
    }

    // Index with index, both below the number of texts in the dictionary.
    pub fn index_indexes(texts: u64) -> ItemPairs
        ensures { result ≡ record { key = AsIndex texts; value = AsIndex texts; causes = all_causes InvalidFormat } }
    {
        let index = ItemKind::Index(texts);
        ItemPairs::of(index, index, Causes::all(DecodeError::InvalidFormat))
    }

    // Index with metric.
    pub fn index_metrics(texts: u64) -> ItemPairs
        ensures { result ≡ record { key = AsIndex texts; value = AsDouble; causes = value_causes } }
    {
        ItemPairs::of(
            ItemKind::Index(texts),
            ItemKind::Double,
            Causes::of_values(),
        )
    }
}

impl PairReader for ItemPairs {
    ghost one = { λ s. a_pair s.key s.value };

    ghost failing = { λ s. s.causes };

    fn causes(&self) -> Causes {
        self.causes
    }

    fn read_pair<'a>(&self, buf: &mut Buffer<'a>) -> Result<PairRead<'a>, ItemFault> {
        let key = buf.read_item(self.key)?;
        let value = buf.read_item(self.value)?;
        Ok(PairRead {
            key,
            value: Some(value),
        })
    }
}
