//! Laws: facts about the command line. Each is the contract of a function with an empty body.
ghost use Rattle.std.specs.Prelude.{◌≡◌, ℕ, List, [], Result};
ghost use Rattle.clap.specs.Simple.{subcommand_of};
ghost use Rattle.clap.specs.Faults.{fault_of};
ghost use Rattle.gg_words.specs.Line.{golden_app};
ghost use Rattle.gg_words.specs.Meaning.{IsWordFault, Says, IsCommand};
ghost use Rattle.gg_words.specs.inside.Meaning.{HasWords};
ghost use Rattle.gg_words.specs.Unexpected.{IsUnexpected};
ghost use Rattle.gg_words.specs.inside.Range.{AreInRange};
ghost use Rattle.gg_words.specs.declared.command.Cmd.{Cmd};
ghost use Rattle.gg_words.specs.declared.command.WordFault.{WordFault};

/// If `clap` takes words, it finds a command in them, and each word that the command requires is given: its files, a
/// snapshot's cycle, or a demo's seed and size.
pub fn words_are_given()
    ensures { (words : List (List ℕ)) → fault_of golden_app words ≡ [] → HasWords (subcommand_of golden_app words) }
{}

/// The numbers of a command are in their ranges: the capacity is 1 to 4,096, the number of workers is at most 64, a demo's
/// seed is at most 4,294,967,295, its size is 1 to 64, and the cycle of a snapshot is at most 1,000,000.
pub fn numbers_are_in_range()
    ensures { (words : List (List ℕ)) (cmd : Cmd) → IsCommand words cmd → AreInRange cmd }
{}

/// Words mean at most one thing. Words that mean a command have no fault. At most one word is unexpected.
pub fn one_meaning()
    ensures once { (words : List (List ℕ)) (one other : Result Cmd (List ℕ)) → Says words one → Says words other → one ≡ other }
    ensures apart { (words : List (List ℕ)) (cmd : Cmd) (fault : WordFault) → IsCommand words cmd → IsWordFault words fault → ⊥ }
    ensures word { (words : List (List ℕ)) (one other : List ℕ) → IsUnexpected words one → IsUnexpected words other → one ≡ other }
{}
