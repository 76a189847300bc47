//! Laws of scripts.

ghost use Rattle.ed_model.specs.ScriptLaws.{ListingsAreRead, OnlyListingsAreRead, ScriptsHaveOneSpelling, ListingsKeepLimits};

/// Reading the listing of a script gives the script, and every text that is read is a listing. No script has two spellings in one
/// version, and each listing is within the limits.
pub fn laws_of_scripts()
    ensures listings_are_read { ListingsAreRead }
    ensures only_listings_are_read { OnlyListingsAreRead }
    ensures scripts_have_one_spelling { ScriptsHaveOneSpelling }
    ensures listings_keep_limits { ListingsKeepLimits }
{}
