// What a payload means: its traces, and the entries that it makes.
#![tactic(auto)]

ghost use Rattle.traces.specs.Examples.{MeaningExamples};

// Payloads and what they mean.
pub fn meaning_examples_stand()
    ensures { MeaningExamples }
{}
