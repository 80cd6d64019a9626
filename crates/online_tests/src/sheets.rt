// The sheet that is served.

/// The count sheet.
pub const COUNT: &str =
    r#"{"sheet":1,"vendor":"Example","product":"Count","version":"1","url":"https://example.org",
 "interfaces":["interface org.example.count\n\ntype Entry (name: string, amount: int)\n\nmethod Add(amount: int) -> (total: int)\n\nmethod List() -> (entry: ?Entry, done: bool)\n\nmethod Note(entry: Entry, tag: string) -> ()\n\nmethod Echo() -> ()\n\nmethod Ping() -> ()\n\nerror Negative (amount: int)\n"],
 "registers":[
  {"name":"total","scope":"org.example.count","type":"int","initial":0},
  {"name":"entries","scope":"org.example.count","type":"[]Entry","initial":[]}],
 "rules":{
  "org.example.count.Add":{
   "guards":[{"need":{"not":{"less":[{"param":["amount"]},{"const":0}]}},
              "else":"Negative","with":{"struct":{"amount":{"param":["amount"]}}}}],
   "steps":[{"set":"total","to":{"sum":[{"register":["total"]},{"param":["amount"]}]}}],
   "outcome":{"reply":{"struct":{"total":{"register":["total"]}}}}},
  "org.example.count.Echo":{"outcome":{"upgrade":"echo","reply":{"struct":{}}}},
  "org.example.count.List":{"outcome":{"stream":{"register":["entries"]},
   "each":{"struct":{"entry":{"item":[]},"done":{"const":false}}},
   "last":{"struct":{"done":{"const":true}}}}},
  "org.example.count.Note":{"steps":[{"push":"entries","value":{"param":["entry"]}}],
   "outcome":{"reply":{"struct":{}}}}}}"#;
