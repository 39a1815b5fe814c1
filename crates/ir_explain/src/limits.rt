//! The limits and defaults that documents state, once more as numbers: each is a clause of a function
//! with an empty body. A constant that is changed alone is refused here.
ghost use Rattle.std.specs.Prelude.{◌≡◌, codes};
ghost use Rattle.ir_model.specs.declared.TheConstants as graphs;
ghost use Rattle.ir_plan.specs.declared.TheConstants as plans;
ghost use Rattle.ir_core.specs.declared.TheConstants as runs;
ghost use Rattle.ir_script.specs.declared.TheConstants as scripts;
ghost use Rattle.ir_streams.specs.declared.TheConstants as streams;
ghost use Rattle.ir_trace.specs.declared.TheConstants as traces;
ghost use Rattle.ir_cli.specs.declared.TheConstants as words;
ghost use Rattle.ir_explain.specs.declared.TheConstants as sentences;

/// Limits of texts: of topologies, names and weights, of numbers in scripts and traces, of segments
/// of a row, and of reading and writing.
pub fn limits_of_texts()
    ensures nodes { graphs.MAX_NODES ≡ 32768 }
    ensures edges { graphs.MAX_EDGES ≡ 131072 }
    ensures name { graphs.MAX_NAME_BYTES ≡ 64 }
    ensures weight { graphs.MAX_WEIGHT ≡ 65535 }
    ensures digits { scripts.MAX_DIGITS ≡ 5 }
    ensures number { scripts.MAX_NUMBER ≡ 65535 }
    ensures traced { traces.MAX_NUMBER ≡ 4294967295 }
    ensures segments { traces.MAX_SEGMENTS ≡ 4 }
    ensures bytes { streams.MAX_INPUT_BYTES ≡ 16777216 }
    ensures reads { streams.MAX_READS ≡ 20000000 }
    ensures tries { streams.MAX_TRIES ≡ 1000000 }
    ensures part { streams.PART_BYTES ≡ 1048576 }
{}

/// Limits of runs: of tours, and of networks where packets travel, their packets and epochs.
pub fn limits_of_runs()
    ensures tour { plans.MOST_TOUR_NODES ≡ 4096 }
    ensures sweeps { plans.MOST_SWEEPS ≡ 16 }
    ensures nodes { runs.MAX_NODES ≡ 1024 }
    ensures links { runs.MAX_LINKS ≡ 8192 }
    ensures restamps { runs.MAX_RESTAMPS ≡ 3 }
    ensures capacity { runs.MAX_CAPACITY ≡ 1024 }
    ensures packets { runs.MAX_PACKETS ≡ 4096 }
    ensures epochs { runs.MAX_EPOCHS ≡ 64 }
    ensures changes { runs.MAX_CHANGES ≡ 65535 }
{}

/// Limits and defaults of words, and the limits of sentences.
pub fn limits_of_words()
    ensures threads { words.MAX_THREADS ≡ 256 }
    ensures capacity { words.DEFAULT_CAPACITY.now ≡ codes "16" }
    ensures packets { words.DEFAULT_PACKETS.now ≡ codes "4096" }
    ensures restamps { words.DEFAULT_RESTAMPS.now ≡ codes "0" }
    ensures quoted { sentences.MOST_QUOTED ≡ 64 }
    ensures lines { sentences.MOST_EXPLAINED ≡ 64 }
    ensures names { sentences.MOST_NAMES ≡ 1024 }
    ensures edits { sentences.MOST_EDITS ≡ 2 }
{}
