//! What holds of tables of types.

ghost use Rattle.link_types.specs.Laws.{OneLayer, OneType, FuncsStay, TypesStay, ExternsStay, InstanceTypesStay, FuncsStand, InstanceTypesStand};

/// Where no text, no value type and no layer stands twice, two layers that stand for one type are one. A layer stands for one type.
pub fn numbers_say_equal()
    ensures layer { OneLayer }
    ensures closed { OneType }
{}

/// What a reference stands for it stands for also once the table has grown.
pub fn types_stay()
    ensures funcs { FuncsStay }
    ensures types { TypesStay }
    ensures externs { ExternsStay }
    ensures instance_types { InstanceTypesStay }
{}

/// What a reference stands for has its number in the table.
pub fn types_stand()
    ensures funcs { FuncsStand }
    ensures instance_types { InstanceTypesStand }
{}
