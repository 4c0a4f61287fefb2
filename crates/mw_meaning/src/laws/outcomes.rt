// Outcomes of items and of main.

ghost use Rattle.mw_meaning.specs.OutcomeLaws.{NamesOfItemsAreValues, OtherPlacesDontMatter, ItemsComeToTheirCode};
ghost use Rattle.mw_meaning.specs.OutcomeLaws.{MainComesToItsValue, NamesOfMainAreValues};
ghost use Rattle.mw_meaning.specs.OutcomeLaws.{MainComesToItsValueAfterItems};

/// The outcomes of a typable program's items and of its main, under either mode.
#[tactic(auto, using(crate::proofs::Outcomes::outcome_laws, crate::proofs::OtherPlaces::other_places_dont_matter))]
pub fn outcomes()
    ensures names { NamesOfItemsAreValues }
    ensures other_places { OtherPlacesDontMatter }
    ensures items { ItemsComeToTheirCode }
    ensures main_value { MainComesToItsValue }
    ensures main_names { NamesOfMainAreValues }
    ensures main_after_items { MainComesToItsValueAfterItems }
{}
