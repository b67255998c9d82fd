// The laws of single items: what is read is an encoding, every encoding is read, what is written is read back, and which faults are told where.
#![tactic(auto)]

ghost use Rattle.item_laws.specs.Laws.{ReadsEncodings, EncodingsRead, WrittenReadBack, FaultsTold};
ghost use Rattle.item_laws.specs.Vectors.{WrittenExamples, IntegerExamples, DoubleExamples, TextExamples};

// What a reading of an item accepts is an encoding of its value, and every encoding of a fitting value is accepted.
pub fn readings_are_encodings()
    ensures sound { ReadsEncodings }
    ensures complete { EncodingsRead }
{}

// What is written for a fitting value is read as that value, and its bytes are consumed, no more and no fewer.
pub fn written_items_are_read_back()
    ensures { WrittenReadBack }
{}

// The cause of each fault, and its place, which is the item's.
pub fn item_faults_are_told()
    ensures { FaultsTold }
{}

// Single items, written and read as computed.
pub fn item_examples_stand()
    ensures written { WrittenExamples }
    ensures integers { IntegerExamples }
    ensures doubles { DoubleExamples }
    ensures texts { TextExamples }
{}
