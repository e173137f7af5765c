//! Laws of what is written. The functions do nothing: what they ensure is the law.
ghost use Rattle.answers.specs.Json.{json_text as text_in_json};
ghost use Rattle.answers.specs.Text.{outcome_text};
ghost use Rattle.answers.specs.Told.{TellsOrder};

/// The order of the steps can be read back from the text: outcomes of one shape and the same watches with one text have one order.
pub fn text_tells_order()
    ensures { TellsOrder outcome_text }
{}

/// The order of the steps can be read back from the JSON: outcomes of one shape and the same watches with one JSON have one order.
pub fn json_tells_order()
    ensures { TellsOrder text_in_json }
{}
