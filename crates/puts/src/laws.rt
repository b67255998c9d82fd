// What holds of the written forms, whatever is written. The functions only state it.
ghost use Rattle.std.specs.Prelude.{◌^◌, ◌<◌, length, pos};
ghost use Rattle.msgpack.specs.Encodings.{boolean, integer, float64, text, binary, array, map};
ghost use Rattle.msgpack.specs.Encodings.{written_integer, written_text, written_binary, written_array, written_map, written_boolean};
ghost use Rattle.msgpack.specs.Encodings.{fixed_u8, fixed_u32, fixed_u64, fixed_i64, fixed_double};
ghost use Rattle.puts.specs.Laws.{Encoded, Shortest, FitsEither, FitsSigned};

// Each written form is an encoding of what it is written for.
pub fn written_forms_stand()
    ensures integers { Encoded integer FitsEither written_integer }
    ensures texts { Encoded text (λ t. length t < 2 ^ 32) written_text }
    ensures binaries { Encoded binary (λ b. length b < 2 ^ 32) written_binary }
    ensures arrays { Encoded array (λ n. n < 2 ^ 32) written_array }
    ensures maps { Encoded map (λ n. n < 2 ^ 32) written_map }
    ensures booleans { Encoded boolean (λ _. Unit {0}) written_boolean }
    ensures bytes { Encoded (λ n. integer (pos n)) (λ n. n < 2 ^ 8) fixed_u8 }
    ensures words { Encoded (λ n. integer (pos n)) (λ n. n < 2 ^ 32) fixed_u32 }
    ensures longs { Encoded (λ n. integer (pos n)) (λ n. n < 2 ^ 64) fixed_u64 }
    ensures signed { Encoded integer FitsSigned fixed_i64 }
    ensures doubles { Encoded float64 (λ b. b < 2 ^ 64) fixed_double }
{}

// No encoding is shorter than the written form.
pub fn shortest_forms_stand()
    ensures integers { Shortest integer written_integer }
    ensures texts { Shortest text written_text }
    ensures binaries { Shortest binary written_binary }
    ensures arrays { Shortest array written_array }
    ensures maps { Shortest map written_map }
    ensures booleans { Shortest boolean written_boolean }
{}
