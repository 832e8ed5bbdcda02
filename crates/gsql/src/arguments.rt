//! The words of the command line.
ghost use Rattle.std.specs.Prelude.{◌≡◌, map, string_bytes};
ghost use Rattle.std.specs.Option.{option_map};
ghost use Rattle.gsql.specs.Words.{asked as asked_by, is_flag as is_flag_of};

fn is_flag(word: &str) -> bool
    ensures { result ≡ is_flag_of word.now }
{
    match word.as_bytes() {
        [] => false,
        [first, ..] => *first == b'-',
    }
}

/// The names of the catalog and of the query, where the words are `run` and these two and neither begins with `-`.
pub fn asked(words: &[String]) -> Option<(&str, &str)>
    ensures { option_map (λ p. (p.0.now, p.1.now)) result ≡ asked_by (map string_bytes words.now) }
{
    match words {
        [mode, catalog, query] => {
            let catalog = catalog.as_str();
            let query = query.as_str();
            if mode.as_str() == "run" && !is_flag(catalog) && !is_flag(query) {
                Some((catalog, query))
            } else {
                None
            }
        }
        _ => None,
    }
}
