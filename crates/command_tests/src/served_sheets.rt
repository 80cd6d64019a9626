// The sheets that are served.

/// The count sheet.
pub const COUNT: &str =
    r#"{"sheet":1,"vendor":"Example","product":"Count","version":"1","url":"https://example.org",
 "interfaces":["interface org.example.count\n\ntype Entry (name: string, amount: int)\n\nmethod Add(amount: int) -> (total: int)\n\nmethod List() -> (entry: ?Entry, done: bool)\n\nmethod Note(entry: Entry, tag: string) -> ()\n\nmethod Echo() -> ()\n\nmethod Ping() -> ()\n\nerror Negative (amount: int)\n"],
 "registers":[
  {"name":"total","scope":"org.example.count","type":"int","initial":0},
  {"name":"entries","scope":"org.example.count","type":"[]Entry","initial":[]}],
 "rules":{
  "org.example.count.Add":{
   "guards":[{"need":{"not":{"less":[{"param":["amount"]},{"const":0}]}},
              "else":"Negative","with":{"struct":{"amount":{"param":["amount"]}}}}],
   "steps":[{"set":"total","to":{"sum":[{"register":["total"]},{"param":["amount"]}]}}],
   "outcome":{"reply":{"struct":{"total":{"register":["total"]}}}}},
  "org.example.count.Echo":{"outcome":{"upgrade":"echo","reply":{"struct":{}}}},
  "org.example.count.List":{"outcome":{"stream":{"register":["entries"]},
   "each":{"struct":{"entry":{"item":[]},"done":{"const":false}}},
   "last":{"struct":{"done":{"const":true}}}}},
  "org.example.count.Note":{"steps":[{"push":"entries","value":{"param":["entry"]}}],
   "outcome":{"reply":{"struct":{}}}}}}"#;

/// The count sheet in version 2, where a negative amount has a branch of its own.
pub const TWO: &str =
    r#"{"sheet":2,"vendor":"Example","product":"Count","version":"1","url":"https://example.org","interfaces":["interface org.example.count\n\ntype Entry (name: string, amount: int)\n\nmethod Add(amount: int) -> (total: int)\n\nmethod List() -> (entry: ?Entry, done: bool)\n\nmethod Note(entry: Entry, tag: string) -> ()\n\nmethod Echo() -> ()\n\nmethod Ping() -> ()\n\nerror Negative (amount: int)\n"],"registers":[{"name":"total","scope":"org.example.count","type":"int","initial":0},{"name":"entries","scope":"org.example.count","type":"[]Entry","initial":[]}],"rules":{"org.example.count.Add":[{"when":{"less":[{"param":["amount"]},{"const":0}]},"outcome":{"reply":{"const":{"total":-1}}}},{"steps":[{"set":"total","to":{"sum":[{"register":["total"]},{"param":["amount"]}]}}],"outcome":{"reply":{"struct":{"total":{"register":["total"]}}}}}],"org.example.count.Echo":[{"outcome":{"upgrade":"echo","reply":{"struct":{}}}}],"org.example.count.List":[{"outcome":{"stream":{"register":["entries"]},"each":{"struct":{"entry":{"item":[]},"done":{"const":false}}},"last":{"struct":{"done":{"const":true}}}}}],"org.example.count.Note":[{"steps":[{"push":"entries","value":{"param":["entry"]}}],"outcome":{"reply":{"struct":{}}}}]}}"#;

/// A sheet that keeps, tells and gives back objects.
pub const DEEP: &str =
    r#"{"sheet":1,"vendor":"V","product":"P","version":"1","url":"u","interfaces":["interface a.b\n\nmethod Keep(what: object) -> ()\n\nmethod Tell() -> (what: object)\n\nmethod Give(what: object) -> (what: object)\n"],"registers":[{"name":"kept","scope":"a.b","type":"object","initial":{}}],"rules":{"a.b.Keep":{"steps":[{"set":"kept","to":{"param":["what"]}}],"outcome":{"reply":{"struct":{}}}},"a.b.Tell":{"outcome":{"reply":{"struct":{"what":{"register":["kept"]}}}}},"a.b.Give":{"outcome":{"reply":{"struct":{"what":{"param":["what"]}}}}}}}"#;

/// A sheet with an upgrade that changes a register.
pub const GOING: &str =
    r#"{"sheet":1,"vendor":"V","product":"P","version":"1","url":"u","interfaces":["interface a.b\n\nmethod Go(by: int) -> (at: int)\n\nmethod At() -> (at: int)\n"],"registers":[{"name":"at","scope":"a.b","type":"int","initial":1}],"rules":{"a.b.Go":{"steps":[{"set":"at","to":{"sum":[{"register":["at"]},{"param":["by"]}]}}],"outcome":{"upgrade":"discard","reply":{"struct":{"at":{"register":["at"]}}}}},"a.b.At":{"outcome":{"reply":{"struct":{"at":{"register":["at"]}}}}}}}"#;
