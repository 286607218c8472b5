//! What holds of tables of types of values.

ghost use Rattle.link_values.specs.Laws.{NumbersSayEqual, StandingStays};

/// Where no type stands at two numbers, two types are the same exactly where their numbers are.
pub fn numbers_say_equal()
    ensures { NumbersSayEqual }
{}

/// What stands at a number stands there still once a type has been numbered.
pub fn standing_stays()
    ensures { StandingStays }
{}
