// Faults: an item's inside its record's, and that inside the payload's.
// Each `From` is written out: it says what it gives, which a derived one does not, and a fault passes by it to its record and to the payload.
#![tactic(auto)]

ghost use Rattle.std.specs.Prelude.{◌≡◌};
ghost use Rattle.faults.specs.declared.AttributeFault.TheVariants.{Own as OwnAttribute, ArrayValue as InArrayValue};
ghost use Rattle.faults.specs.declared.EventFault.TheVariants.{Own as OwnEvent, Attribute as InAttribute};
ghost use Rattle.faults.specs.declared.SpanFault.TheVariants.{Own as OwnSpan, Link as InLink, Event as InEvent};
ghost use Rattle.faults.specs.Faults.{record_number, counted, in_array_value, in_link, as_dictionary, in_dictionary, in_payload, in_span};

use items::fault::{DecodeError, ItemFault};

// The innermost record that a fault happened in. Its numbers are 0 to 6, in this order.
#[derive(Clone, Copy, Debug, PartialEq, Eq)]
pub enum Record {
    Payload,
    Dictionary,
    Span,
    Link,
    Event,
    Attribute,
    ArrayValue,
}

impl Record {
    // The number of the record.
    pub fn number(self) -> u8
        ensures { result ≡ record_number self }
    {
        self as u8
    }
}

// A fault in an element of an array value.
// This, `LinkFault` and `DictionaryFault` are no one generic struct: that would need a marker type for each record, and is no plainer.
#[derive(Clone, Copy, Debug, PartialEq, Eq)]
pub struct ArrayValueFault(pub ItemFault);

impl From<ItemFault> for ArrayValueFault {
    ghost from_gives = { λ e r. r ≡ in_array_value e };

    fn from(e: ItemFault) -> ArrayValueFault {
        ArrayValueFault(e)
    }
}

// This, `EventFault` and `SpanFault` have each an `Own` and its `From`: one generic enum would fit the two with one inner record, and its name for that record says less.
#[derive(Clone, Copy, Debug, PartialEq, Eq)]
pub enum AttributeFault {
    Own(ItemFault),
    ArrayValue(ArrayValueFault),
}

impl From<ItemFault> for AttributeFault {
    ghost from_gives = { λ e r. r ≡ OwnAttribute e };

    fn from(e: ItemFault) -> AttributeFault {
        AttributeFault::Own(e)
    }
}

impl From<ArrayValueFault> for AttributeFault {
    ghost from_gives = { λ e r. r ≡ InArrayValue e };

    fn from(e: ArrayValueFault) -> AttributeFault {
        AttributeFault::ArrayValue(e)
    }
}

#[derive(Clone, Copy, Debug, PartialEq, Eq)]
pub enum EventFault {
    Own(ItemFault),
    Attribute(AttributeFault),
}

impl From<ItemFault> for EventFault {
    ghost from_gives = { λ e r. r ≡ OwnEvent e };

    fn from(e: ItemFault) -> EventFault {
        EventFault::Own(e)
    }
}

impl From<AttributeFault> for EventFault {
    ghost from_gives = { λ e r. r ≡ InAttribute e };

    fn from(e: AttributeFault) -> EventFault {
        EventFault::Attribute(e)
    }
}

// A fault in a link.
#[derive(Clone, Copy, Debug, PartialEq, Eq)]
pub struct LinkFault(pub ItemFault);

impl From<ItemFault> for LinkFault {
    ghost from_gives = { λ e r. r ≡ in_link e };

    fn from(e: ItemFault) -> LinkFault {
        LinkFault(e)
    }
}

#[derive(Clone, Copy, Debug, PartialEq, Eq)]
pub enum SpanFault {
    Own(ItemFault),
    Link(LinkFault),
    Event(EventFault),
}

impl From<ItemFault> for SpanFault {
    ghost from_gives = { λ e r. r ≡ OwnSpan e };

    fn from(e: ItemFault) -> SpanFault {
        SpanFault::Own(e)
    }
}

impl From<LinkFault> for SpanFault {
    ghost from_gives = { λ e r. r ≡ InLink e };

    fn from(e: LinkFault) -> SpanFault {
        SpanFault::Link(e)
    }
}

impl From<EventFault> for SpanFault {
    ghost from_gives = { λ e r. r ≡ InEvent e };

    fn from(e: EventFault) -> SpanFault {
        SpanFault::Event(e)
    }
}

// A fault in a dictionary.
#[derive(Clone, Copy, Debug, PartialEq, Eq)]
pub struct DictionaryFault(pub ItemFault);

impl From<ItemFault> for DictionaryFault {
    ghost from_gives = { λ e r. r ≡ as_dictionary e };

    fn from(e: ItemFault) -> DictionaryFault {
        DictionaryFault(e)
    }
}

// An item's fault with the record that it happened in.
#[derive(Clone, Copy, Debug, PartialEq, Eq)]
pub struct RecordFault {
    pub record: Record,
    pub item: ItemFault,
}

impl RecordFault {
    // With the whole traces read before it, and the whole spans before it in its trace.
    pub fn counted(self, trace: u64, span: u64) -> PayloadFault
        ensures { result ≡ counted trace span self }
    {
        PayloadFault {
            fault: self,
            trace,
            span,
        }
    }
}

// A fault at the payload's own headers.
impl From<ItemFault> for RecordFault {
    ghost from_gives = { λ e r. r ≡ in_payload e };

    fn from(e: ItemFault) -> RecordFault {
        RecordFault {
            record: Record::Payload,
            item: e,
        }
    }
}

impl From<DictionaryFault> for RecordFault {
    ghost from_gives = { λ e r. r ≡ in_dictionary e };

    fn from(e: DictionaryFault) -> RecordFault {
        RecordFault {
            record: Record::Dictionary,
            item: e.0,
        }
    }
}

impl From<SpanFault> for RecordFault {
    ghost from_gives = { λ e r. r ≡ in_span e };

    fn from(e: SpanFault) -> RecordFault {
        let (record, item) = match e {
            SpanFault::Own(item) => (Record::Span, item),
            SpanFault::Link(LinkFault(item)) => (Record::Link, item),
            SpanFault::Event(EventFault::Own(item)) => (Record::Event, item),
            SpanFault::Event(EventFault::Attribute(AttributeFault::Own(item))) => {
                (Record::Attribute, item)
            }
            SpanFault::Event(
                EventFault::Attribute(AttributeFault::ArrayValue(ArrayValueFault(item))),
            ) => (Record::ArrayValue, item),
        };
        RecordFault { record, item }
    }
}

// A record's fault, with the whole traces read before it, and the whole spans before it in its trace.
#[derive(Clone, Copy, Debug, PartialEq, Eq)]
pub struct PayloadFault {
    pub fault: RecordFault,
    pub trace: u64,
    pub span: u64,
}

impl PayloadFault {
    pub fn cause(self) -> DecodeError
        ensures { result ≡ self.fault.item.cause }
    {
        self.fault.item.cause
    }

    pub fn place(self) -> usize
        ensures { result ≡ self.fault.item.place }
    {
        self.fault.item.place
    }

    pub fn record(self) -> Record
        ensures { result ≡ self.fault.record }
    {
        self.fault.record
    }
}
