//! What stands before the data of a page: how it looks, and its elements.

/// How every page begins.
pub const HEAD: &str = "<!DOCTYPE html>
<html lang='en'>
<head>
<meta charset='utf-8'>
<meta name='viewport' content='width=device-width, initial-scale=1'>
<title>A run step by step</title>
";

/// How it looks.
pub const STYLE: &str = "<style>
:root { color-scheme: light dark; --ink: #222; --soft: #555; --ground: #fff; --bar: #f0f0f0; --edge: #bbb; --rail: #ccc; --here: #fff3b0; --waits: #d9e8ff; --new: #b45f00;
  --command: #0b57d0; --reply: #146c2e; --trb: #7b1fa2; --doorbell: #8a4600; --unit: #006874; --data: #4a5d00; --event: #b3261e; --context: #37517e; --turn: #444; --refused: #ad1457 }
@media (prefers-color-scheme: dark) {
  :root { --ink: #e8eaed; --soft: #bdc1c6; --ground: #16181c; --bar: #24272d; --edge: #5f6368; --rail: #4a4d52; --here: #3b3410; --waits: #1f3a5f; --new: #fdc37a;
    --command: #8ab4f8; --reply: #81c995; --trb: #d7aefb; --doorbell: #fdc37a; --unit: #78d9e8; --data: #c5d86d; --event: #f6aea9; --context: #aecbfa; --turn: #d0d3d7; --refused: #ff9fd2 }
}
* { box-sizing: border-box }
body { margin: 0; height: 100vh; display: grid; grid-template: auto minmax(0, 1fr) / minmax(0, 3fr) minmax(22em, 2fr); font: 13px sans-serif; color: var(--ink); background: var(--ground) }
header { grid-column: 1 / -1; display: flex; flex-wrap: wrap; gap: .4em 1.2em; align-items: center; padding: .4em .8em; background: var(--bar); border-bottom: 1px solid var(--edge) }
header input, header select, header button { font: inherit }
header details { flex-basis: 100%; font-size: 12px; color: var(--soft) }
#legend { display: flex; flex-wrap: wrap; gap: .1em 1em; margin: .2em 0; padding: 0; list-style: none; color: var(--ink) }
#address { width: 11em; font-family: monospace }
#picture { overflow: hidden auto; position: relative; outline-offset: -2px }
#lanes { position: sticky; top: 0; z-index: 1; background: var(--ground); border-bottom: 1px solid var(--edge) }
#rows { position: absolute; left: 0; right: 0 }
#panel { overflow: auto; padding: .4em .8em 2em; border-left: 1px solid var(--edge) }
@media (max-width: 799px) {
  body { grid-template: auto minmax(0, 1fr) minmax(0, 1fr) / minmax(0, 1fr) }
  #panel { border-left: none; border-top: 1px solid var(--edge) }
}
.told { position: absolute; width: 1px; height: 1px; overflow: hidden; clip-path: inset(50%) }
h2 { font-size: 13px; margin: 1.1em 0 .3em; border-bottom: 1px solid var(--edge) }
h2:first-child { margin-top: 0 }
p { margin: .2em 0 }
code, .bytes { font-family: monospace; font-size: 12px; overflow-wrap: anywhere }
.bytes, .quiet { color: var(--soft) }
.line { margin: .3em 0; padding-left: .5em; border-left: 3px solid var(--edge) }
.found { background: var(--here) }
.ring { margin: .5em 0 }
.cells { display: flex; flex-wrap: wrap; gap: 1px; margin: .15em 0 }
.cell { width: 2.9em; border: 1px solid var(--edge); text-align: center; font: 12px monospace; line-height: 1.25; color: var(--soft) }
.cell.waits { background: var(--waits); color: var(--ink) }
.cell.new { outline: 2px solid var(--new); color: var(--ink) }
.cell b { display: block; font-weight: normal; min-height: 1.25em; color: var(--event) }
#lanes text { font: bold 12px sans-serif; fill: var(--ink) }
.row { position: absolute; left: 0; right: 0; display: flex; align-items: center; cursor: pointer; outline-offset: -2px }
.row.step { border-top: 1px solid var(--rail) }
.row.step span { font-weight: bold }
.row.here { background: var(--here) }
.row svg { flex: none; display: block }
.row span { font: 12px monospace; padding: 0 .6em; white-space: nowrap; overflow: hidden; text-overflow: ellipsis }
.rail { stroke: var(--rail) }
.nothing { padding: 1em }
.command { color: var(--command); fill: var(--command); stroke: var(--command) }
.reply { color: var(--reply); fill: var(--reply); stroke: var(--reply) }
.trb { color: var(--trb); fill: var(--trb); stroke: var(--trb) }
.doorbell { color: var(--doorbell); fill: var(--doorbell); stroke: var(--doorbell) }
.unit { color: var(--unit); fill: var(--unit); stroke: var(--unit) }
.data { color: var(--data); fill: var(--data); stroke: var(--data) }
.event { color: var(--event); fill: var(--event); stroke: var(--event) }
.context { color: var(--context); fill: var(--context); stroke: var(--context) }
.turn { color: var(--turn); fill: var(--turn); stroke: var(--turn) }
.refused { color: var(--refused); fill: var(--refused); stroke: var(--refused) }
</style>
";

/// Its elements, up to the string of the data.
pub const BODY: &str = "</head>
<body>
<header>
<span><button id='back' title='the step before' aria-label='the step before'>&#9664;</button> <b id='count'></b> <button id='on' title='the next step' aria-label='the next step'>&#9654;</button></span>
<label>client <select id='client'></select></label>
<label>tag <select id='tag'></select></label>
<label>address <input id='address' placeholder='43021010' spellcheck='false'></label>
<span id='hits' role='status'></span>
<details id='help'><summary>Colours and keys</summary>
<ul id='legend' aria-label='what the colours mean'></ul>
<p>A dot on a client's lane: the step is of this client. Keys: &larr; &rarr; a step, Page up and down ten, Home and End, / an address, Enter the next step with it, Escape all steps. With #5 behind this page's address it opens at step 5.</p>
</details>
</header>
<div id='picture'><svg id='lanes' aria-hidden='true'></svg><div id='tall'><div id='rows' role='listbox' aria-label='the lines of the run'></div></div></div>
<div id='panel' role='region' aria-label='the step that is looked at' tabindex='0'></div>
<p id='now' class='told' role='status' aria-live='polite'></p>
<script type='application/json' id='run'>";
