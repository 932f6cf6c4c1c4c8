//! What is proved of the definitions, apart from any code. A law is a function without a body,
//! whose contract is its statement.
ghost use Rattle.std.specs.Prelude.{ℕ, ◌≡◌, ◌++◌, true, List, [], All, codes};
ghost use Rattle.std.specs.Prelude.{Some, None, Ok, Err};
ghost use Rattle.sota_report.specs.Laws.{keys_rise, are_new, IsAtNode, example_places};
ghost use Rattle.sota_report.specs.Names.{Place, places_of, node_of, first_name};
ghost use Rattle.sota_report.specs.Objects.{reply_members, reply_text};
ghost use Rattle.sota_report.specs.Resolved.{resolved};
ghost use Rattle.sota_report.specs.declared.fault.NamesFault.TheVariants.{Fields, RepeatedName};
ghost use Rattle.sota_report.specs.declared.reply.Reply.{Reply};
ghost use Rattle.sota_report.specs.declared.reply.Reply.TheVariants.{Answer, Refused};

/// The keys of each object rise, so that each stands once.
pub fn keys_of_objects_rise()
    ensures { (places : List Place) (reply : Reply)
        → keys_rise (reply_members places reply) ≡ true }
{}

/// Of an accepted text no name stands twice, and all nodes are nodes of the network.
pub fn names_stand_once()
    ensures once { (nodes : ℕ) (bytes : List ℕ) (places : List Place)
        → places_of nodes bytes ≡ Ok places → are_new [] places ≡ true }
    ensures nodes { (nodes : ℕ) (bytes : List ℕ) (places : List Place)
        → places_of nodes bytes ≡ Ok places → All (IsAtNode nodes) places }
{}

/// The definitions, computed on texts, lines and replies.
pub fn worked_names()
    ensures names { places_of 3 (codes "1 Home\n\n # x\n3 Work\r\n1\tDepot") ≡ Ok example_places }
    ensures repeated { places_of 3 (codes "1 Home\n2 Home") ≡ Err (RepeatedName 2) }
    ensures fields { places_of 3 (codes "#\n1 Home x") ≡ Err (Fields 2) }
    ensures found { (node_of example_places (codes "Depot") ≡ Some 1)
        × (first_name example_places 1 ≡ Some (codes "Home"))
        × (first_name example_places 2 ≡ None) }
    ensures line { resolved example_places (codes " ask  @Home @Work 3")
        ≡ Some (codes " ask  1 3 3") }
    ensures absent { resolved example_places (codes "ask @Shop 3 3") ≡ None }
    ensures elsewhere { resolved example_places (codes "route 3 @Home")
        ≡ Some (codes "route 3 @Home") }
    ensures answer { reply_text example_places (Answer 3 1 9 0 0 None)
        ≡ codes "{\"arc\":null,\"budget\":9,\"dest\":1,\"from\":\"Work\",\"kind\":\"answer\","
        ++ codes "\"lower\":0,\"origin\":3,\"to\":\"Home\",\"upper\":0}" }
    ensures refused { reply_text example_places (Refused 1 (codes "Place") None)
        ≡ codes "{\"cause\":\"Place\",\"kind\":\"refused\",\"line\":1}" }
{}
