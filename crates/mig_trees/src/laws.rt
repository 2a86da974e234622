// What holds of the lists of link trees.
ghost use Rattle.std.specs.Prelude.{◌≡◌, List};
ghost use Rattle.mig_schema.specs.declared.tables.ColId.{ColId};
ghost use Rattle.mig_schema.specs.declared.tables.Schema.{Schema as SchemaValue};
ghost use Rattle.mig_schema.specs.declared.programs.Join.{Join};
ghost use Rattle.mig_schema.specs.Typed.{IsTypedSchema};
ghost use Rattle.mig_listing.specs.Listing.{IsIn};
ghost use Rattle.mig_trees.specs.Answer.{AreTrees};
ghost use Rattle.mig_trees.specs.Listed.{IsListedJoin};

/// There is one list of the link trees that serve a need: what `AreTrees` asks determines the answer.
pub fn one_answer()
    ensures one { (schema : SchemaValue) (need : List (List ColId)) (xs ys : List Join)
        → AreTrees schema need xs → AreTrees schema need ys → xs ≡ ys }
{}

/// Over a typed schema each listed join has the shape that the typing rules ask for: at most four different tables of the schema, and for each further one an equality of an earlier table's column with one of its own, both of one kind. It holds a column of each set.
pub fn listed_joins_are_shaped()
    ensures shaped { (schema : SchemaValue) (need : List (List ColId)) (joins : List Join)
        → IsTypedSchema schema → AreTrees schema need joins → (join : Join) → IsIn join joins → IsListedJoin schema need join }
{}
