// Numbers as text, in ASCII. Writing one is the library's (`itoa`): specs/ and proofs/ have what it writes, in the document's words (`decimal_of`,
// `signed_of`), and reading one back.
#![tactic(auto)]

pub mod numerals; // numerals.rt: numbers read from text
