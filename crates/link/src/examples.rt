// The proved examples: one table, whose proof is asked for by the contract here.
ghost use Rattle.link.specs.Examples.{CodeExamples, BitsExamples, WindowExamples, AgeExamples, CountExamples};

pub fn proved_examples()
    ensures code { CodeExamples }
    ensures bits { BitsExamples }
    ensures window { WindowExamples }
    ensures age { AgeExamples }
    ensures count { CountExamples }
{}
