// Theorems on the definitions: each function answers nothing, and its contract is the theorem.
ghost use Rattle.code.specs.Meaning.{CodeLaws};
ghost use Rattle.rs16.specs.Bench.{BenchValues};
ghost use Rattle.rs16.specs.Codewords.{rs16};
ghost use Rattle.rs16.specs.Field.{FieldLaws};

// The elements are a field, whose elements but 0 are the powers of α.
pub fn field_is_lawful()
    ensures { FieldLaws }
{}

// rs16 keeps the laws of a code: codewords differ in at least 33 places, and every 223 octets begin just one.
pub fn rs16_is_lawful()
    ensures { CodeLaws rs16 }
{}

// A product, a line octet, and the row of a zero frame.
pub fn bench_values_stand()
    ensures { BenchValues }
{}
