//! The theorems about sets, words and tables, on contracts of functions that a program can call.
ghost use Rattle.words.specs.Laws.{SameMembers, ValueOfSet, CodedMembers, EveryChoice, ZerosAtEnd, WordOrder};
ghost use Rattle.words.specs.HidingLaws.{BitsAreSets};
ghost use Rattle.words.specs.TableLaws.{ResidualsNeverBoth, OneCount, TableCounts, TableUnique, TableAnswers, TableIsItsOwn};

/// Computes nothing: its contract says what the definitions of sets, words and their order come to.
pub fn laws_of_words()
    ensures same_members { SameMembers }
    ensures value_of_set { ValueOfSet }
    ensures coded_members { CodedMembers }
    ensures every_choice { EveryChoice }
    ensures zeros_at_end { ZerosAtEnd }
    ensures word_order { WordOrder }
{}

/// Computes nothing: its contract says what the definitions of residuals, counts and tables come to.
pub fn laws_of_tables()
    ensures never_both { ResidualsNeverBoth }
    ensures one_count { OneCount }
    ensures counts { TableCounts }
    ensures unique { TableUnique }
    ensures answers { TableAnswers }
    ensures own { TableIsItsOwn }
{}

/// Computes nothing: its contract says what hiding a bit of words comes to where only sets count.
pub fn laws_of_hiding()
    ensures { BitsAreSets }
{}
