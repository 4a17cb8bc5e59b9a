// What is stated of the definitions alone.
ghost use Rattle.promise.specs.Bench.{BenchValues};
ghost use Rattle.promise.specs.Example.{PromiseApplies};

// Values of all layers, from the field to the rows, that a bench can be held against.
pub fn bench_values_stand()
    ensures { BenchValues }
{}

// The premises of arrival and ride-through can be met: a link whose second block, with a whole fade of it altered, is delivered as it was put.
pub fn promise_applies()
    ensures { PromiseApplies }
{}
