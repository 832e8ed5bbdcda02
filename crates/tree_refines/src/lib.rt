//! When a resolved tree gives no result that a text, or another tree, doesn't permit; and over which catalogs it stands.
#![tactic(auto)]
