//! The laws of search keys: each is the contract of a function that does nothing.

ghost use Rattle.search_keys.specs.Laws.{SearchKeysNameBoards, SearchKeysFit, SearchKeysHaveBits};
ghost use Rattle.search_keys.specs.Laws.{MovesExchangeTwoDigits, GroupsSeeDigits};

/// A search key names one board of a shape.
#[tactic(auto, using(crate::proofs::SearchKeyLemmas::one_board))]
pub fn search_keys_name_boards()
    ensures { SearchKeysNameBoards }
{}

/// A search key has a digit for each cell: at most 64 bits where there are at most 16 cells, and
/// 125 bits always.
#[tactic(auto, using(crate::proofs::SearchKeyLemmas::key_fits, crate::proofs::SearchKeyLemmas::key_bits))]
pub fn search_keys_fit()
    ensures digits { SearchKeysFit }
    ensures bits { SearchKeysHaveBits }
{}

/// A move exchanges the digits of the blank and of the tile that is moved.
pub fn moves_exchange_two_digits()
    ensures { MovesExchangeTwoDigits }
{}

/// The cells of tiles that follow one another are digits of the search key that follow one another.
#[tactic(auto, using(crate::proofs::SearchKeyLemmas::group_digits))]
pub fn groups_see_digits()
    ensures { GroupsSeeDigits }
{}
